// The commands of a task file: reading one from the front of what remains, its size, its bytes. It knows nothing of what a
// command means, nor of where in a file it may stand.
#![tactic(auto)]

ghost use Rattle.std.specs.Prelude.{◌≡◌, map, ◌<◌, ◌≤◌, length, get_or, MatchOption};
ghost use Rattle.lists.specs.Writing.{Room, Wrote};
ghost use Rattle.commands.specs.Table.{letter_v, letter_u, letter_m, letter_c, letter_p, letter_e, plus_sign, letter_l, letter_t, letter_q, letter_r, letter_k};
ghost use Rattle.commands.specs.Table.{table, rows, row_at, size_of_row, size_of_byte};
ghost use Rattle.commands.specs.Rows.{written, Widths, Cut, Whole};
ghost use Rattle.commands.specs.Reading.{command_at};
ghost use Rattle.commands.specs.Encoding.{encode, row_bytes};
ghost use Rattle.commands.specs.declared.Command.TheVariants.{Start, Mode, Condition, ModeCondition, ModeEffect, Add, End};

use answers::Reason;

// A command with its operands as the file has them: one case a command byte of either kind of file, plus the refusal and its reason.
// A constant is the bits of a two's complement number; `integers::signed` reads it.
#[derive(Drop)]
pub enum Command {
    Variable(u32, u32, u32),
    Start(u32),
    Mode(u16, u16),
    Action,
    Condition(u8, u8, u32),
    ModeCondition(u8, u16),
    ModeEffect(u8, u16),
    Add(u8, u32),
    Linear(u8, u32),
    Term(u8, u32),
    Quotient(u8, u8, u32),
    Residue(u8, u8, u32),
    Goal,
    End,
    Sum(u8, u32),
    Refused(Reason),
}

// The one list that reading and writing go by. A row for each command: its byte, how many operands follow, and the width of each in
// bytes, 0 where there is no operand.
const TABLE: [[u8; 5]; 15] = [
    [b'V', 3, 4, 4, 4],
    [b'U', 1, 4, 0, 0],
    [b'M', 2, 2, 2, 0],
    [b'A', 0, 0, 0, 0],
    [b'C', 3, 1, 1, 4],
    [b'P', 2, 1, 2, 0],
    [b'E', 2, 1, 2, 0],
    [b'+', 2, 1, 4, 0],
    [b'L', 2, 1, 4, 0],
    [b'T', 2, 1, 4, 0],
    [b'Q', 3, 1, 1, 4],
    [b'R', 3, 1, 1, 4],
    [b'G', 0, 0, 0, 0],
    [b'Z', 0, 0, 0, 0],
    [b'K', 2, 1, 4, 0],
];

// The rows by the command.
const VARIABLE: usize = 0;

const START: usize = 1;

const MODE: usize = 2;

const ACTION: usize = 3;

const CONDITION: usize = 4;

const MODE_CONDITION: usize = 5;

const MODE_EFFECT: usize = 6;

const ADD: usize = 7;

const LINEAR: usize = 8;

const TERM: usize = 9;

const QUOTIENT: usize = 10;

const RESIDUE: usize = 11;

const GOAL: usize = 12;

const END: usize = 13;

const SUM: usize = 14;

// The bytes of two commands that callers look for.
pub const ACTION_BYTE: u8 = TABLE[ACTION][0];

pub const GOAL_BYTE: u8 = TABLE[GOAL][0];

// The table is the definition's, checked here over all rows at once; reading and writing take what they need of it as constants.
fn whole_table() -> [[u8; 5]; 15]
    ensures { result ≡ map written table }
{
    TABLE
}

// What follows goes by the row, which is known when it is compiled, and so are the byte and the widths.

// The widths of a command's operands.
fn widths<const ROW: usize>() -> [usize; 3]
    requires { ROW < rows }
    ensures { Widths ROW result }
{
    let row = TABLE[ROW];
    [row[2] as usize, row[3] as usize, row[4] as usize]
}

// The length of a command in bytes, its own byte with it.
fn command_size<const ROW: usize>() -> usize
    requires { ROW < rows }
    ensures { (result ≡ size_of_row ROW) × (0 < result) × (result ≤ 13) }
{
    let [first, second, third] = widths::<ROW>();
    1 + first + second + third
}

// The operands of the command at the front, whose byte is the row's, one behind another after its byte: none where they are not all there.
fn operands<const ROW: usize>(rest: &[u8]) -> Option<(u32, u32, u32)>
    requires row { ROW < rows }
    requires begins { (0 < length rest.now) × (get_or rest.now 0 0 ≡ (row_at ROW).byte) }
    ensures { MatchOption result (Cut rest.now) (λ r. Whole rest.now ROW r.0 r.1 r.2) }
{
    if rest.len() < command_size::<ROW>() {
        return None;
    }
    let [first, second, third] = widths::<ROW>();
    let x = integers::number_at(rest, 1, first);
    let y = integers::number_at(rest, 1 + first, second);
    let z = integers::number_at(rest, 1 + first + second, third);
    Some((x, y, z))
}

// One reader a kind of command, for a caller that has seen its byte: the command, or the refusal where its operands are not all there.
pub fn read_variable(rest: &[u8]) -> Command
    requires { (0 < length rest.now) × (get_or rest.now 0 0 ≡ letter_v) }
    ensures { result ≡ command_at rest.now }
{
    let Some((lower, upper, start)) = operands::<VARIABLE>(rest) else {
        return Command::Refused(Reason::CutShort);
    };
    Command::Variable(lower, upper, start)
}

pub fn read_start(rest: &[u8]) -> Command
    requires { (0 < length rest.now) × (get_or rest.now 0 0 ≡ letter_u) }
    ensures { result ≡ command_at rest.now }
{
    let Some((start, _, _)) = operands::<START>(rest) else {
        return Command::Refused(Reason::CutShort);
    };
    Command::Start(start)
}

pub fn read_mode(rest: &[u8]) -> Command
    requires { (0 < length rest.now) × (get_or rest.now 0 0 ≡ letter_m) }
    ensures { result ≡ command_at rest.now }
{
    let Some((size, start, _)) = operands::<MODE>(rest) else {
        return Command::Refused(Reason::CutShort);
    };
    Command::Mode(size as u16, start as u16)
}

pub fn read_condition(rest: &[u8]) -> Command
    requires { (0 < length rest.now) × (get_or rest.now 0 0 ≡ letter_c) }
    ensures { result ≡ command_at rest.now }
{
    let Some((var, relation, constant)) = operands::<CONDITION>(rest) else {
        return Command::Refused(Reason::CutShort);
    };
    Command::Condition(var as u8, relation as u8, constant)
}

pub fn read_mode_condition(rest: &[u8]) -> Command
    requires { (0 < length rest.now) × (get_or rest.now 0 0 ≡ letter_p) }
    ensures { result ≡ command_at rest.now }
{
    let Some((mode, value, _)) = operands::<MODE_CONDITION>(rest) else {
        return Command::Refused(Reason::CutShort);
    };
    Command::ModeCondition(mode as u8, value as u16)
}

pub fn read_mode_effect(rest: &[u8]) -> Command
    requires { (0 < length rest.now) × (get_or rest.now 0 0 ≡ letter_e) }
    ensures { result ≡ command_at rest.now }
{
    let Some((mode, value, _)) = operands::<MODE_EFFECT>(rest) else {
        return Command::Refused(Reason::CutShort);
    };
    Command::ModeEffect(mode as u8, value as u16)
}

pub fn read_add(rest: &[u8]) -> Command
    requires { (0 < length rest.now) × (get_or rest.now 0 0 ≡ plus_sign) }
    ensures { result ≡ command_at rest.now }
{
    let Some((var, constant, _)) = operands::<ADD>(rest) else {
        return Command::Refused(Reason::CutShort);
    };
    Command::Add(var as u8, constant)
}

pub fn read_linear(rest: &[u8]) -> Command
    requires { (0 < length rest.now) × (get_or rest.now 0 0 ≡ letter_l) }
    ensures { result ≡ command_at rest.now }
{
    let Some((target, constant, _)) = operands::<LINEAR>(rest) else {
        return Command::Refused(Reason::CutShort);
    };
    Command::Linear(target as u8, constant)
}

pub fn read_term(rest: &[u8]) -> Command
    requires { (0 < length rest.now) × (get_or rest.now 0 0 ≡ letter_t) }
    ensures { result ≡ command_at rest.now }
{
    let Some((var, weight, _)) = operands::<TERM>(rest) else {
        return Command::Refused(Reason::CutShort);
    };
    Command::Term(var as u8, weight)
}

pub fn read_quotient(rest: &[u8]) -> Command
    requires { (0 < length rest.now) × (get_or rest.now 0 0 ≡ letter_q) }
    ensures { result ≡ command_at rest.now }
{
    let Some((target, operand, divisor)) = operands::<QUOTIENT>(rest) else {
        return Command::Refused(Reason::CutShort);
    };
    Command::Quotient(target as u8, operand as u8, divisor)
}

pub fn read_residue(rest: &[u8]) -> Command
    requires { (0 < length rest.now) × (get_or rest.now 0 0 ≡ letter_r) }
    ensures { result ≡ command_at rest.now }
{
    let Some((target, operand, divisor)) = operands::<RESIDUE>(rest) else {
        return Command::Refused(Reason::CutShort);
    };
    Command::Residue(target as u8, operand as u8, divisor)
}

pub fn read_sum(rest: &[u8]) -> Command
    requires { (0 < length rest.now) × (get_or rest.now 0 0 ≡ letter_k) }
    ensures { result ≡ command_at rest.now }
{
    let Some((relation, constant, _)) = operands::<SUM>(rest) else {
        return Command::Refused(Reason::CutShort);
    };
    Command::Sum(relation as u8, constant)
}

// The command at the front of what remains of a file; 1 where no command has the byte, 2 where nothing remains or operands are missing.
#[tactic(auto, unfolding(crate::specs::Reading::command_at))]
pub fn read(rest: &[u8]) -> Command
    ensures { result ≡ command_at rest.now }
{
    if rest.len() == 0 {
        return Command::Refused(Reason::CutShort);
    }
    match rest[0] {
        b'V' => read_variable(rest),
        b'U' => read_start(rest),
        b'M' => read_mode(rest),
        b'A' => Command::Action,
        b'C' => read_condition(rest),
        b'P' => read_mode_condition(rest),
        b'E' => read_mode_effect(rest),
        b'+' => read_add(rest),
        b'L' => read_linear(rest),
        b'T' => read_term(rest),
        b'Q' => read_quotient(rest),
        b'R' => read_residue(rest),
        b'G' => Command::Goal,
        b'Z' => Command::End,
        b'K' => read_sum(rest),
        _ => Command::Refused(Reason::NotAllowed),
    }
}

// The length of the command that begins with a byte; 1 where no command does.
#[tactic(auto, unfolding(crate::specs::Table::size_of_byte))]
pub fn size_of(byte: u8) -> usize
    ensures { (result ≡ size_of_byte byte) × (0 < result) × (result ≤ 13) }
{
    match byte {
        b'V' => command_size::<VARIABLE>(),
        b'U' => command_size::<START>(),
        b'M' => command_size::<MODE>(),
        b'A' => command_size::<ACTION>(),
        b'C' => command_size::<CONDITION>(),
        b'P' => command_size::<MODE_CONDITION>(),
        b'E' => command_size::<MODE_EFFECT>(),
        b'+' => command_size::<ADD>(),
        b'L' => command_size::<LINEAR>(),
        b'T' => command_size::<TERM>(),
        b'Q' => command_size::<QUOTIENT>(),
        b'R' => command_size::<RESIDUE>(),
        b'G' => command_size::<GOAL>(),
        b'Z' => command_size::<END>(),
        b'K' => command_size::<SUM>(),
        _ => 1,
    }
}

// A command by its row: the row's byte, then each operand at its width, none where the width is 0.
fn put_by_row<const ROW: usize>(out: &mut [u8], at: usize, operands: [u32; 3]) -> usize
    requires row { ROW < rows }
    requires room { Room out.old at (row_bytes ROW operands) }
    ensures { Wrote out.old at (row_bytes ROW operands) out.new result }
{
    let [x, y, z] = operands;
    let [first, second, third] = widths::<ROW>();
    let place = lists::put_number(out, at, TABLE[ROW][0] as u32, 1);
    let place = lists::put_number(out, place, x, first);
    let place = lists::put_number(out, place, y, second);
    lists::put_number(out, place, z, third)
}

// One writer a kind of command that a restricted file has, by the operands: it stores the command's bytes from a place on and gives the
// place behind them.
pub fn put_start(out: &mut [u8], at: usize, bits: u32) -> usize
    requires { Room out.old at (encode (Start bits)) }
    ensures { Wrote out.old at (encode (Start bits)) out.new result }
{
    put_by_row::<START>(out, at, [bits, 0, 0])
}

pub fn put_mode(out: &mut [u8], at: usize, size: u16, value: u16) -> usize
    requires { Room out.old at (encode (Mode size value)) }
    ensures { Wrote out.old at (encode (Mode size value)) out.new result }
{
    put_by_row::<MODE>(out, at, [size as u32, value as u32, 0])
}

pub fn put_condition(out: &mut [u8], at: usize, variable: u8, relation: u8, bits: u32) -> usize
    requires { Room out.old at (encode (Condition variable relation bits)) }
    ensures { Wrote out.old at (encode (Condition variable relation bits)) out.new result }
{
    put_by_row::<CONDITION>(out, at, [variable as u32, relation as u32, bits])
}

pub fn put_mode_condition(out: &mut [u8], at: usize, mode: u8, value: u16) -> usize
    requires { Room out.old at (encode (ModeCondition mode value)) }
    ensures { Wrote out.old at (encode (ModeCondition mode value)) out.new result }
{
    put_by_row::<MODE_CONDITION>(out, at, [mode as u32, value as u32, 0])
}

pub fn put_mode_effect(out: &mut [u8], at: usize, mode: u8, value: u16) -> usize
    requires { Room out.old at (encode (ModeEffect mode value)) }
    ensures { Wrote out.old at (encode (ModeEffect mode value)) out.new result }
{
    put_by_row::<MODE_EFFECT>(out, at, [mode as u32, value as u32, 0])
}

pub fn put_add(out: &mut [u8], at: usize, variable: u8, bits: u32) -> usize
    requires { Room out.old at (encode (Add variable bits)) }
    ensures { Wrote out.old at (encode (Add variable bits)) out.new result }
{
    put_by_row::<ADD>(out, at, [variable as u32, bits, 0])
}

pub fn put_end(out: &mut [u8], at: usize) -> usize
    requires { Room out.old at (encode End) }
    ensures { Wrote out.old at (encode End) out.new result }
{
    put_by_row::<END>(out, at, [0, 0, 0])
}
