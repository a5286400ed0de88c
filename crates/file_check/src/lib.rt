// Whether a file is a task: the rules on a file of either kind, taken command by command up to the first refusal or Z.
//
// One reader serves both kinds; they differ in their limits. A command's byte is looked at first (1), then the command is read from what
// remains of the file and taken apart (2), then tested in the order 14, 4, 5, 6, 7. The crate makes no task of the file and keeps nothing of
// an action but counts and marks; every run of bytes has its answer. The definitions are crate `model`'s; specs/Views says what the types
// here mean in them.
#![tactic(auto)]

ghost use Rattle.std.specs.Prelude.{◌≡◌, true, false, ℕ, ◌+◌, ◌<◌, ◌^◌, leb, ltb, get_or, set, length, nat_abs, Err};
ghost use Rattle.answers.specs.Refusals.{number_of};
ghost use Rattle.commands.specs.Table.{letter_v, letter_u, letter_m, letter_c, letter_p, letter_e, plus_sign, letter_l, letter_t, letter_q, letter_r, letter_k};
ghost use Rattle.commands.specs.Table.{rows, row_of};
ghost use Rattle.commands.specs.Reading.{command_at};
ghost use Rattle.commands.specs.declared.Command.TheVariants.{Action, Quotient, Goal, End};
ghost use Rattle.model.specs.Limits.{source_limits, restricted_limits};
ghost use Rattle.model.specs.ReadingState.{opened, with_numeric_effect, begin};
ghost use Rattle.model.specs.Rules.{allowed, constant, is_zero, rule_of, take_of};
ghost use Rattle.model.specs.Reading.{refused_at, ended_at, verdict_of};
ghost use Rattle.file_check.specs.Views.{limits_of, number_of_section, flag_of, state_of, taken_of, lacks_term, verdict_is, Ruled};

use answers::{Reason, Refusal};
use commands::Command;

// What a kind of file allows. `size` is of a mode; `conditions` are C and K of an action or goal, `mode_conditions` its P, `numeric_effects`
// of an action, which in a restricted one are its +, `terms` T of an L or a K, `sums` K of a file. Every constant lies within ± `constant`, that
// of a K within ± `sum_constant`; `relations` is the largest relation.
#[derive(Clone, Copy)]
struct Limits {
    restricted: bool,
    variables: u32,
    modes: u32,
    size: u32,
    actions: u32,
    conditions: u32,
    mode_conditions: u32,
    numeric_effects: u32,
    terms: u32,
    constant: u32,
    relations: u32,
    sums: u32,
    sum_constant: u32,
}

// The sections of a file.
#[derive(Clone, Copy, PartialEq, Eq)]
enum Section {
    Declarations,
    Action,
    Goal,
}

// What a reading has counted so far: variables, modes, actions and `sums`, its K, in the file, the others in the action or goal. `terms` is 0
// where no T may stand, else 1 plus the T's since their L or K; it passes its limit by one, and is wider for that. `bare_sum` is whether the
// last K has no T yet. The three that an answer gives stand apart: side by side two of them become one number in the compiled loop, and
// a command takes more than twice the time.
#[derive(Clone, Copy)]
struct Counts {
    sums: u32,
    bare_sum: bool,
    section: Section,
    variables: u32,
    conditions: u32,
    modes: u32,
    mode_conditions: u32,
    actions: u32,
    numeric_effects: u32,
    terms: u64,
}

// Where a reading stands: its counts, the sizes of the modes, and marks on the modes that have their effect, on the variables that are a
// target, and on those in a T of the last L or K.
#[derive(Drop)]
struct Reading {
    counts: Counts,
    sizes: [u16; MODES],
    modes_set: [u8; MODES],
    targets_seen: [u8; VARIABLES],
    terms_seen: [u8; VARIABLES],
}

// What comes of a command that is not refused: the reading goes on, or it is at the end.
#[derive(Clone, Copy)]
enum Progress {
    Going,
    Ended,
}

// What an accepted file has: so many variables, modes and actions.
#[derive(Clone, Copy, Debug, PartialEq, Eq)]
pub struct Accepted {
    pub variables: u32,
    pub modes: u32,
    pub actions: u32,
}

// The most modes and variables that a file of either kind declares, as `restricted_limits` has them.
const MODES: usize = 8;

const VARIABLES: usize = 64;

// The largest relation of a source file and of a restricted one.
const SOURCE_RELATIONS: u32 = 4;

const RESTRICTED_RELATIONS: u32 = 3;

fn source_limits() -> Limits
    ensures { limits_of result ≡ source_limits }
{
    Limits {
        restricted: false,
        variables: 8,
        modes: 4,
        size: 16,
        actions: 32,
        conditions: 8,
        mode_conditions: 8,
        numeric_effects: 3,
        terms: 4,
        constant: 10_000,
        relations: SOURCE_RELATIONS,
        sums: 4,
        sum_constant: 1_000_000_000,
    }
}

fn restricted_limits() -> Limits
    ensures { limits_of result ≡ restricted_limits }
{
    Limits {
        restricted: true,
        variables: 64,
        modes: 8,
        size: 8192,
        actions: 16_384,
        conditions: 24,
        mode_conditions: 16,
        numeric_effects: 16,
        terms: 0,
        constant: 1_000_000_000,
        relations: RESTRICTED_RELATIONS,
        sums: 0,
        sum_constant: 0,
    }
}

// Whether a value is not below a mode's size, as none is where there is no such mode.
fn not_below_size(sizes: &[u16], mode: usize, value: u16) -> bool
    ensures { result ≡ leb (get_or sizes.now mode 0) value }
{
    sizes.get(mode).is_none_or(|size| *size <= value)
}

fn put_size(sizes: &mut [u16], mode: usize, size: u16)
    ensures { sizes.new ≡ set sizes.old mode size }
{
    if mode < sizes.len() {
        sizes[mode] = size;
    }
}

// Whether a mode or a variable is marked.
fn is_marked(marks: &[u8], i: usize) -> bool
    ensures { result ≡ leb 1 (get_or marks.now i 0) }
{
    marks.get(i).is_some_and(|mark| 1 <= *mark)
}

fn put_mark(marks: &mut [u8], i: usize)
    ensures { marks.new ≡ set marks.old i 1 }
{
    if i < marks.len() {
        marks[i] = 1;
    }
}

// Whether a constant lies outside ± a limit.
fn is_outside(limit: u32, bits: u32) -> bool
    ensures { result ≡ ltb limit (nat_abs (constant bits)) }
{
    !integers::bits_within(bits, limit)
}

fn is_zero(bits: u32) -> bool
    ensures { result ≡ is_zero (constant bits) }
{
    bits == 0
}

// A command may be refused; then the reading stays where it stood.
impl Reading {
    // Before the first command.
    fn begun() -> Reading
        ensures { state_of result ≡ begin }
    {
        Reading {
            counts: Counts {
                sums: 0,
                bare_sum: false,
                section: Section::Declarations,
                variables: 0,
                conditions: 0,
                modes: 0,
                mode_conditions: 0,
                actions: 0,
                numeric_effects: 0,
                terms: 0,
            },
            sizes: [0; MODES],
            modes_set: [0; MODES],
            targets_seen: [0; VARIABLES],
            terms_seen: [0; VARIABLES],
        }
    }

    // Whether a command may stand where the reading is, by its byte alone.
    fn is_allowed(&self, l: &Limits, byte: u8) -> bool
        ensures { result ≡ allowed (limits_of l.now) (state_of self.now) byte }
    {
        let section = self.counts.section;
        match byte {
            b'V' => !l.restricted && section == Section::Declarations,
            b'U' => l.restricted && section == Section::Declarations,
            b'M' => section == Section::Declarations,
            b'A' | b'G' => section != Section::Goal,
            b'C' | b'P' => section != Section::Declarations,
            b'E' | b'+' => section == Section::Action,
            b'L' | b'Q' | b'R' => !l.restricted && section == Section::Action,
            b'T' => 1 <= self.counts.terms,
            b'Z' => section == Section::Goal,
            b'K' => !l.restricted && section != Section::Declarations,
            _ => false,
        }
    }

    // Whether a command with the byte stands where a T must: the K before it has none yet, in a file that is not restricted.
    fn lacks_term(&self, l: &Limits, byte: u8) -> bool
        ensures { result ≡ lacks_term l.now.restricted (flag_of self.now.counts.bare_sum) byte }
    {
        self.counts.bare_sum && !l.restricted && byte != b'T'
    }

    // Whether a condition, C or K, is one too many.
    fn has_no_room_for_condition(&self, l: &Limits) -> bool
        ensures { result ≡ leb l.now.conditions self.now.counts.conditions }
    {
        l.conditions <= self.counts.conditions
    }

    // Whether a numeric effect is one too many.
    fn has_no_room(&self, l: &Limits) -> bool
        ensures full { result ≡ leb l.now.numeric_effects self.now.counts.numeric_effects }
        ensures room { result ≡ false → self.now.counts.numeric_effects + 1 < 2 ^ 32 }
    {
        l.numeric_effects <= self.counts.numeric_effects
    }

    // V lower, upper, start: the next variable of a source file.
    fn take_variable(&mut self, l: &Limits, rest: &[u8]) -> Result<Progress, Reason>
        requires { (0 < length rest.now) × (get_or rest.now 0 0 ≡ letter_v) }
        ensures { Ruled l.now self.old (command_at rest.now) self.new result }
    {
        let Command::Variable(lower, upper, start) = commands::read_variable(rest) else {
            return Err(Reason::CutShort);
        };
        if l.variables <= self.counts.variables {
            return Err(Reason::OverLimit);
        }
        if is_outside(l.constant, lower) {
            return Err(Reason::OutOfRange);
        }
        if is_outside(l.constant, upper) {
            return Err(Reason::OutOfRange);
        }
        if !integers::bits_at_most(lower, upper) {
            return Err(Reason::OutOfRange);
        }
        if !integers::bits_at_most(lower, start) {
            return Err(Reason::OutOfRange);
        }
        if !integers::bits_at_most(start, upper) {
            return Err(Reason::OutOfRange);
        }
        self.counts.variables += 1;
        self.counts.terms = 0;
        Ok(Progress::Going)
    }

    // U start: the next variable of a restricted file.
    fn take_start(&mut self, l: &Limits, rest: &[u8]) -> Result<Progress, Reason>
        requires { (0 < length rest.now) × (get_or rest.now 0 0 ≡ letter_u) }
        ensures { Ruled l.now self.old (command_at rest.now) self.new result }
    {
        let Command::Start(start) = commands::read_start(rest) else {
            return Err(Reason::CutShort);
        };
        if l.variables <= self.counts.variables {
            return Err(Reason::OverLimit);
        }
        if is_outside(l.constant, start) {
            return Err(Reason::OutOfRange);
        }
        self.counts.variables += 1;
        self.counts.terms = 0;
        Ok(Progress::Going)
    }

    // M size, start: the next mode. A start not below the size is 5, so a size of 0 is.
    fn take_mode(&mut self, l: &Limits, rest: &[u8]) -> Result<Progress, Reason>
        requires { (0 < length rest.now) × (get_or rest.now 0 0 ≡ letter_m) }
        ensures { Ruled l.now self.old (command_at rest.now) self.new result }
    {
        let Command::Mode(size, start) = commands::read_mode(rest) else {
            return Err(Reason::CutShort);
        };
        if l.modes <= self.counts.modes {
            return Err(Reason::OverLimit);
        }
        if size <= start {
            return Err(Reason::Undeclared);
        }
        if l.size < size as u32 {
            return Err(Reason::OutOfRange);
        }
        put_size(&mut self.sizes, self.counts.modes as usize, size);
        self.counts.modes += 1;
        self.counts.terms = 0;
        Ok(Progress::Going)
    }

    // An action or the goal begins: nothing is counted or marked in it yet.
    fn open(&mut self, section: Section, actions: u32)
        ensures { state_of self.new ≡ opened (state_of self.old) (number_of_section section) actions }
    {
        self.counts.section = section;
        self.counts.actions = actions;
        self.counts.conditions = 0;
        self.counts.mode_conditions = 0;
        self.counts.numeric_effects = 0;
        self.counts.terms = 0;
        self.modes_set = [0; MODES];
        self.targets_seen = [0; VARIABLES];
        self.terms_seen = [0; VARIABLES];
    }

    // A: the next action.
    fn take_action(&mut self, l: &Limits) -> Result<Progress, Reason>
        ensures { Ruled l.now self.old Action self.new result }
    {
        if l.actions <= self.counts.actions {
            return Err(Reason::OverLimit);
        }
        self.open(Section::Action, self.counts.actions + 1);
        Ok(Progress::Going)
    }

    // C variable, relation, constant.
    fn take_condition(&mut self, l: &Limits, rest: &[u8]) -> Result<Progress, Reason>
        requires { (0 < length rest.now) × (get_or rest.now 0 0 ≡ letter_c) }
        ensures { Ruled l.now self.old (command_at rest.now) self.new result }
    {
        let Command::Condition(variable, relation, constant) = commands::read_condition(rest) else {
            return Err(Reason::CutShort);
        };
        if self.has_no_room_for_condition(l) {
            return Err(Reason::OverLimit);
        }
        if self.counts.variables <= variable as u32 {
            return Err(Reason::Undeclared);
        }
        if l.relations < relation as u32 {
            return Err(Reason::Undeclared);
        }
        if is_outside(l.constant, constant) {
            return Err(Reason::OutOfRange);
        }
        self.counts.conditions += 1;
        self.counts.terms = 0;
        Ok(Progress::Going)
    }

    // K relation, constant: a condition more, of which no T is read yet; T must follow.
    fn take_sum(&mut self, l: &Limits, rest: &[u8]) -> Result<Progress, Reason>
        requires { (0 < length rest.now) × (get_or rest.now 0 0 ≡ letter_k) }
        ensures { Ruled l.now self.old (command_at rest.now) self.new result }
    {
        let Command::Sum(relation, constant) = commands::read_sum(rest) else {
            return Err(Reason::CutShort);
        };
        if self.has_no_room_for_condition(l) {
            return Err(Reason::OverLimit);
        }
        if l.sums <= self.counts.sums {
            return Err(Reason::OverLimit);
        }
        if l.relations < relation as u32 {
            return Err(Reason::Undeclared);
        }
        if is_outside(l.sum_constant, constant) {
            return Err(Reason::OutOfRange);
        }
        self.counts = Counts {
            sums: self.counts.sums + 1,
            bare_sum: true,
            conditions: self.counts.conditions + 1,
            terms: 1,
            ..self.counts
        };
        self.terms_seen = [0; VARIABLES];
        Ok(Progress::Going)
    }

    // P mode, value.
    fn take_mode_condition(&mut self, l: &Limits, rest: &[u8]) -> Result<Progress, Reason>
        requires { (0 < length rest.now) × (get_or rest.now 0 0 ≡ letter_p) }
        ensures { Ruled l.now self.old (command_at rest.now) self.new result }
    {
        let Command::ModeCondition(mode, value) = commands::read_mode_condition(rest) else {
            return Err(Reason::CutShort);
        };
        if l.mode_conditions <= self.counts.mode_conditions {
            return Err(Reason::OverLimit);
        }
        if self.counts.modes <= mode as u32 {
            return Err(Reason::Undeclared);
        }
        if not_below_size(&self.sizes, mode as usize, value) {
            return Err(Reason::Undeclared);
        }
        self.counts.mode_conditions += 1;
        self.counts.terms = 0;
        Ok(Progress::Going)
    }

    // E mode, value: one for each mode of an action.
    fn take_mode_effect(&mut self, l: &Limits, rest: &[u8]) -> Result<Progress, Reason>
        requires { (0 < length rest.now) × (get_or rest.now 0 0 ≡ letter_e) }
        ensures { Ruled l.now self.old (command_at rest.now) self.new result }
    {
        let Command::ModeEffect(mode, value) = commands::read_mode_effect(rest) else {
            return Err(Reason::CutShort);
        };
        if self.counts.modes <= mode as u32 {
            return Err(Reason::Undeclared);
        }
        if not_below_size(&self.sizes, mode as usize, value) {
            return Err(Reason::Undeclared);
        }
        if is_marked(&self.modes_set, mode as usize) {
            return Err(Reason::NamedTwice);
        }
        put_mark(&mut self.modes_set, mode as usize);
        self.counts.terms = 0;
        Ok(Progress::Going)
    }

    // A numeric effect on a target: the target is marked, no T of the effect is read yet, and `terms` is as given.
    fn count_effect(&mut self, target: usize, terms: u64)
        requires { self.old.counts.numeric_effects + 1 < 2 ^ 32 }
        ensures { state_of self.new ≡ with_numeric_effect (state_of self.old) target terms }
    {
        put_mark(&mut self.targets_seen, target);
        self.terms_seen = [0; VARIABLES];
        self.counts.numeric_effects += 1;
        self.counts.terms = terms;
    }

    // + variable, constant.
    fn take_add(&mut self, l: &Limits, rest: &[u8]) -> Result<Progress, Reason>
        requires { (0 < length rest.now) × (get_or rest.now 0 0 ≡ plus_sign) }
        ensures { Ruled l.now self.old (command_at rest.now) self.new result }
    {
        let Command::Add(variable, constant) = commands::read_add(rest) else {
            return Err(Reason::CutShort);
        };
        if self.has_no_room(l) {
            return Err(Reason::OverLimit);
        }
        if self.counts.variables <= variable as u32 {
            return Err(Reason::Undeclared);
        }
        if is_zero(constant) {
            return Err(Reason::OutOfRange);
        }
        if is_outside(l.constant, constant) {
            return Err(Reason::OutOfRange);
        }
        if is_marked(&self.targets_seen, variable as usize) {
            return Err(Reason::NamedTwice);
        }
        self.count_effect(variable as usize, 0);
        Ok(Progress::Going)
    }

    // L target, w0; T may follow.
    fn take_linear(&mut self, l: &Limits, rest: &[u8]) -> Result<Progress, Reason>
        requires { (0 < length rest.now) × (get_or rest.now 0 0 ≡ letter_l) }
        ensures { Ruled l.now self.old (command_at rest.now) self.new result }
    {
        let Command::Linear(target, constant) = commands::read_linear(rest) else {
            return Err(Reason::CutShort);
        };
        if self.has_no_room(l) {
            return Err(Reason::OverLimit);
        }
        if self.counts.variables <= target as u32 {
            return Err(Reason::Undeclared);
        }
        if is_outside(l.constant, constant) {
            return Err(Reason::OutOfRange);
        }
        if is_marked(&self.targets_seen, target as usize) {
            return Err(Reason::NamedTwice);
        }
        self.count_effect(target as usize, 1);
        Ok(Progress::Going)
    }

    // T variable, weight.
    fn take_term(&mut self, l: &Limits, rest: &[u8]) -> Result<Progress, Reason>
        requires { (0 < length rest.now) × (get_or rest.now 0 0 ≡ letter_t) }
        ensures { Ruled l.now self.old (command_at rest.now) self.new result }
    {
        let Command::Term(variable, weight) = commands::read_term(rest) else {
            return Err(Reason::CutShort);
        };
        if u64::from(l.terms) < self.counts.terms {
            return Err(Reason::OverLimit);
        }
        if self.counts.variables <= variable as u32 {
            return Err(Reason::Undeclared);
        }
        if is_zero(weight) {
            return Err(Reason::OutOfRange);
        }
        if is_outside(l.constant, weight) {
            return Err(Reason::OutOfRange);
        }
        if is_marked(&self.terms_seen, variable as usize) {
            return Err(Reason::NamedTwice);
        }
        put_mark(&mut self.terms_seen, variable as usize);
        self.counts.terms += 1;
        self.counts.bare_sum = false;
        Ok(Progress::Going)
    }

    // The tests of Q and R, which are the same.
    fn take_division(
        &mut self,
        l: &Limits,
        target: u8,
        operand: u8,
        divisor: u32,
    ) -> Result<Progress, Reason>
        ensures { Ruled l.now self.old (Quotient target operand divisor) self.new result }
    {
        if self.has_no_room(l) {
            return Err(Reason::OverLimit);
        }
        if self.counts.variables <= target as u32 {
            return Err(Reason::Undeclared);
        }
        if self.counts.variables <= operand as u32 {
            return Err(Reason::Undeclared);
        }
        if is_zero(divisor) {
            return Err(Reason::OutOfRange);
        }
        if is_outside(l.constant, divisor) {
            return Err(Reason::OutOfRange);
        }
        if is_marked(&self.targets_seen, target as usize) {
            return Err(Reason::NamedTwice);
        }
        self.count_effect(target as usize, 0);
        Ok(Progress::Going)
    }

    // Q target, operand, divisor.
    fn take_quotient(&mut self, l: &Limits, rest: &[u8]) -> Result<Progress, Reason>
        requires { (0 < length rest.now) × (get_or rest.now 0 0 ≡ letter_q) }
        ensures { Ruled l.now self.old (command_at rest.now) self.new result }
    {
        let Command::Quotient(target, operand, divisor) = commands::read_quotient(rest) else {
            return Err(Reason::CutShort);
        };
        self.take_division(l, target, operand, divisor)
    }

    // R target, operand, divisor.
    fn take_residue(&mut self, l: &Limits, rest: &[u8]) -> Result<Progress, Reason>
        requires { (0 < length rest.now) × (get_or rest.now 0 0 ≡ letter_r) }
        ensures { Ruled l.now self.old (command_at rest.now) self.new result }
    {
        let Command::Residue(target, operand, divisor) = commands::read_residue(rest) else {
            return Err(Reason::CutShort);
        };
        self.take_division(l, target, operand, divisor)
    }

    // G: the goal begins.
    fn take_goal(&mut self, l: &Limits) -> Result<Progress, Reason>
        ensures { Ruled l.now self.old Goal self.new result }
    {
        self.open(Section::Goal, self.counts.actions);
        Ok(Progress::Going)
    }

    // Z: the end.
    fn take_end(&self, l: &Limits) -> Result<Progress, Reason>
        ensures { Ruled l.now self.now End self.now result }
    {
        Ok(Progress::Ended)
    }

    // A command that stands where a T must: 14, and before it 2 where the command is cut short.
    fn refuse_bare(&self, l: &Limits, rest: &[u8]) -> Result<Progress, Reason>
        requires { (0 < length rest.now) × (row_of (get_or rest.now 0 0) < rows)
            × (lacks_term l.now.restricted (flag_of self.now.counts.bare_sum) (get_or rest.now 0 0) ≡ true) }
        ensures { taken_of self.now result ≡ rule_of (limits_of l.now) (state_of self.now) (command_at rest.now) }
    {
        if rest.len() < commands::size_of(rest[0]) {
            Err(Reason::CutShort)
        } else {
            Err(Reason::SumWithoutTerm)
        }
    }

    // The command at the front of what remains of a file: 1 by its byte alone, 14 where it stands in the place of a T, else what its own rule
    // says; 2 goes before 14 and all of that rule.
    #[tactic(auto, using(crate::proofs::Taking::by_own_rule))]
    fn take(&mut self, l: &Limits, rest: &[u8]) -> Result<Progress, Reason>
        ensures { taken_of self.new result ≡ take_of (limits_of l.now) (state_of self.old) rest.now }
    {
        if rest.len() == 0 {
            return Err(Reason::CutShort);
        }
        let byte = rest[0];
        if !self.is_allowed(l, byte) {
            return Err(Reason::NotAllowed);
        }
        if self.lacks_term(l, byte) {
            return self.refuse_bare(l, rest);
        }
        match byte {
            b'V' => self.take_variable(l, rest),
            b'U' => self.take_start(l, rest),
            b'M' => self.take_mode(l, rest),
            b'A' => self.take_action(l),
            b'C' => self.take_condition(l, rest),
            b'P' => self.take_mode_condition(l, rest),
            b'E' => self.take_mode_effect(l, rest),
            b'+' => self.take_add(l, rest),
            b'L' => self.take_linear(l, rest),
            b'T' => self.take_term(l, rest),
            b'Q' => self.take_quotient(l, rest),
            b'R' => self.take_residue(l, rest),
            b'G' => self.take_goal(l),
            b'Z' => self.take_end(l),
            b'K' => self.take_sum(l, rest),
            _ => Err(Reason::NotAllowed),
        }
    }

    // Z, with so many bytes remaining from it on: 3, at the offset after Z, where bytes follow it.
    fn ended_at(&self, at: usize, remaining: usize) -> Result<Accepted, Refusal>
        requires { at + 1 < 2 ^ 64 }
        ensures { verdict_is result ≡ ended_at (state_of self.now) at remaining }
    {
        if remaining != 1 {
            return Err(Reason::BytesBehind.at(at as u64 + 1));
        }
        Ok(Accepted {
            variables: self.counts.variables,
            modes: self.counts.modes,
            actions: self.counts.actions,
        })
    }
}

// The place of a refusal is the offset of the command; where the file ends too soon it is the file's length.
fn refused_at(reason: Reason, at: usize, length: usize) -> Refusal
    ensures { verdict_is (Err result) ≡ refused_at (number_of reason) at length }
{
    match reason {
        Reason::CutShort => reason.at(length as u64),
        _ => reason.at(at as u64),
    }
}

// The answer to a whole file, for any limits.
fn check(l: &Limits, file: &[u8]) -> Result<Accepted, Refusal>
    ensures { verdict_is result ≡ verdict_of (limits_of l.now) file.now }
{
    let mut reading = Reading::begun();
    let mut at: usize = 0;
    while at < file.len() {
        let rest = &file[at..];
        match reading.take(l, rest) {
            Ok(Progress::Going) => at += commands::size_of(rest[0]),
            Ok(Progress::Ended) => return reading.ended_at(at, rest.len()),
            Err(reason) => return Err(refused_at(reason, at, file.len())),
        }
    }
    Err(refused_at(Reason::CutShort, at, file.len()))
}

// Whether a file is a source task, with its counts of variables, modes and actions; else the refusal that document 01 gives.
pub fn check_source(file: &[u8]) -> Result<Accepted, Refusal>
    ensures { verdict_is result ≡ verdict_of source_limits file.now }
{
    check(&source_limits(), file)
}

// The same for a restricted task.
pub fn check_restricted(file: &[u8]) -> Result<Accepted, Refusal>
    ensures { verdict_is result ≡ verdict_of restricted_limits file.now }
{
    check(&restricted_limits(), file)
}
