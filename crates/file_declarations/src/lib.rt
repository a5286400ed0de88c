// What a task file declares: the bounds and starts of its variables, the sizes and start values of its modes, read into lent arrays.
//
// It reads any bytes, from the front up to the first command that declares nothing, and refuses none: whether a file is accepted is asked
// elsewhere. Of an accepted file it gives all that the task declares (proofs/Accepted).
#![tactic(auto)]

ghost use Rattle.std.specs.Prelude.{false, true, ◌≡◌, [], ◌∷◌, ◌<◌, ◌≤◌, length, get_or};
ghost use Rattle.commands.specs.Table.{letter_v, letter_u, letter_m};
ghost use Rattle.commands.specs.Reading.{command_at};
ghost use Rattle.file_declarations.specs.Declarations.{declarations};
ghost use Rattle.file_declarations.specs.Stored.{lowers, uppers, starts, mode_sizes, mode_values, Column, Stored, Lent};
ghost use Rattle.file_declarations.specs.Stored.{SourceStored, RestrictedStored};

use commands::Command;

// The most variables and modes that a file of each kind may declare.
pub const SOURCE_VARIABLES: usize = 8;

pub const SOURCE_MODES: usize = 4;

pub const RESTRICTED_VARIABLES: usize = 64;

pub const RESTRICTED_MODES: usize = 8;

// How many variables and modes a file declares, as far as there was room for them.
#[derive(Clone, Copy, Debug, PartialEq, Eq)]
pub struct Declared {
    pub variables: usize,
    pub modes: usize,
}

// A V at the front of what remains, stored behind the first `count` variables where there is room; and the count after it. A V that is cut
// short stores nothing.
fn put_variable(
    rest: &[u8],
    lower: &mut [i64],
    upper: &mut [i64],
    start: &mut [i64],
    count: usize,
) -> usize
    requires { (0 < length rest.now) × (get_or rest.now 0 0 ≡ letter_v)
        × (length lower.old ≡ length start.old) × (length upper.old ≡ length start.old) × (count ≤ length start.old) }
    ensures { Column lower.old count (lowers (command_at rest.now ∷ [])) result lower.new
        × Column upper.old count (uppers (command_at rest.now ∷ [])) result upper.new
        × Column start.old count (starts false (command_at rest.now ∷ [])) result start.new }
{
    let Command::Variable(lower_bits, upper_bits, start_bits) = commands::read_variable(rest) else {
        return count;
    };
    if count < start.len() {
        lower[count] = integers::signed(lower_bits);
        upper[count] = integers::signed(upper_bits);
        start[count] = integers::signed(start_bits);
        return count + 1;
    }
    count
}

// Likewise a U, which has a start and no bounds.
fn put_start(rest: &[u8], start: &mut [i64], count: usize) -> usize
    requires { (0 < length rest.now) × (get_or rest.now 0 0 ≡ letter_u) × (count ≤ length start.old) }
    ensures { Column start.old count (starts true (command_at rest.now ∷ [])) result start.new }
{
    let Command::Start(bits) = commands::read_start(rest) else {
        return count;
    };
    if count < start.len() {
        start[count] = integers::signed(bits);
        return count + 1;
    }
    count
}

// Likewise an M among the modes.
fn put_mode(rest: &[u8], sizes: &mut [u16], values: &mut [u16], count: usize) -> usize
    requires { (0 < length rest.now) × (get_or rest.now 0 0 ≡ letter_m) × (length values.old ≡ length sizes.old) × (count ≤ length sizes.old) }
    ensures { Column sizes.old count (mode_sizes (command_at rest.now ∷ [])) result sizes.new
        × Column values.old count (mode_values (command_at rest.now ∷ [])) result values.new }
{
    let Command::Mode(size, value) = commands::read_mode(rest) else {
        return count;
    };
    if count < sizes.len() {
        sizes[count] = size;
        values[count] = value;
        return count + 1;
    }
    count
}

// The variables and modes that a file of either kind declares, stored from the front of the arrays; what stands behind them there is as it
// was. The variables of a restricted file have no bounds, and `lower` and `upper` are not written.
fn read(
    file: &[u8],
    restricted: bool,
    lower: &mut [i64],
    upper: &mut [i64],
    start: &mut [i64],
    sizes: &mut [u16],
    values: &mut [u16],
) -> Declared
    requires { Lent restricted lower.old upper.old start.old × (length values.old ≡ length sizes.old) }
    ensures { Stored restricted (declarations restricted file.now) 0 0
        lower.old upper.old start.old sizes.old values.old
        result.variables result.modes lower.new upper.new start.new sizes.new values.new }
{
    let mut variables: usize = 0;
    let mut modes: usize = 0;
    let mut at: usize = 0;
    while at < file.len() {
        let rest = &file[at..];
        let byte = rest[0];
        if byte == b'M' {
            modes = put_mode(rest, sizes, values, modes);
            at += commands::size_of(b'M');
        } else if byte == b'V' && !restricted {
            variables = put_variable(rest, lower, upper, start, variables);
            at += commands::size_of(b'V');
        } else if byte == b'U' && restricted {
            variables = put_start(rest, start, variables);
            at += commands::size_of(b'U');
        } else {
            break;
        }
    }
    Declared { variables, modes }
}

// What a source file declares.
pub fn read_source(
    file: &[u8],
    lower: &mut [i64; SOURCE_VARIABLES],
    upper: &mut [i64; SOURCE_VARIABLES],
    start: &mut [i64; SOURCE_VARIABLES],
    sizes: &mut [u16; SOURCE_MODES],
    values: &mut [u16; SOURCE_MODES],
) -> Declared
    ensures { SourceStored file.now lower.old upper.old start.old sizes.old values.old
        result lower.new upper.new start.new sizes.new values.new }
{
    read(file, false, lower, upper, start, sizes, values)
}

// What a restricted file declares.
pub fn read_restricted(
    file: &[u8],
    start: &mut [i64; RESTRICTED_VARIABLES],
    sizes: &mut [u16; RESTRICTED_MODES],
    values: &mut [u16; RESTRICTED_MODES],
) -> Declared
    ensures { RestrictedStored file.now start.old sizes.old values.old
        result start.new sizes.new values.new }
{
    let mut lower: [i64; 0] = [];
    let mut upper: [i64; 0] = [];
    read(file, true, &mut lower, &mut upper, start, sizes, values)
}
