// The parts row: the one form of a restricted action, two lent rows of numbers, made by `blank` and a push for each part.
//
// What rows mean is said in specs/Row.antt, where their numbers stand in specs/Layout.antt. Nothing here reads a file, tests a rule or
// takes a step.
#![tactic(auto)]

ghost use Rattle.std.specs.Prelude.{◌≡◌, ◌+◌, ◌<◌, List, length, set, ℤ};
ghost use Rattle.model.specs.Steps.{natural_at};
ghost use Rattle.file_parts.specs.Layout.{MARKS, NUMBERS};
ghost use Rattle.file_parts.specs.Row.{row_is, PartsFit, Says};
ghost use Rattle.file_parts.specs.With.{condition, blank_action, with_condition, with_mode_condition, with_mode_effect, with_addition};

// How long the rows of an action are.
pub const MARKS: usize = 116;

pub const NUMBERS: usize = 40;

// For how many parts of each kind there is room.
pub const CONDITIONS: usize = 24;

pub const MODE_CONDITIONS: usize = 16;

pub const MODE_EFFECTS: usize = 8;

pub const ADDITIONS: usize = 16;

// Where in the marks: how many C there are, and of C number 0 its variable and its relation; the others follow.
pub const CONDITION_COUNT: usize = 0;

pub const CONDITION_VARIABLE: usize = 1;

pub const CONDITION_RELATION: usize = 25;

// Likewise of the P and of the E a mode and a value.
pub const MODE_CONDITION_COUNT: usize = 49;

pub const MODE_CONDITION_MODE: usize = 50;

pub const MODE_CONDITION_VALUE: usize = 66;

pub const MODE_EFFECT_COUNT: usize = 82;

pub const MODE_EFFECT_MODE: usize = 83;

pub const MODE_EFFECT_VALUE: usize = 91;

// Of the + a variable; its amount stands in the numbers, behind the constants of the C.
pub const ADDITION_COUNT: usize = 99;

pub const ADDITION_VARIABLE: usize = 100;

pub const ADDITION_AMOUNT: usize = 24;

// Rows of no part.
pub fn blank(marks: &mut [u16; MARKS])
    requires { length marks.old ≡ MARKS }
    ensures { (numbers : List ℤ) → length numbers ≡ NUMBERS → Says blank_action marks.new numbers }
{
    marks[CONDITION_COUNT] = 0;
    marks[MODE_CONDITION_COUNT] = 0;
    marks[MODE_EFFECT_COUNT] = 0;
    marks[ADDITION_COUNT] = 0;
}

// One C more.
pub fn push_condition(
    marks: &mut [u16; MARKS],
    numbers: &mut [i64; NUMBERS],
    variable: u8,
    relation: u8,
    constant: i64,
)
    requires { PartsFit 1 0 0 0 marks.old × (length numbers.old ≡ NUMBERS) }
    ensures { Says (with_condition (row_is marks.old numbers.old) (condition variable relation constant))
        marks.new numbers.new }
{
    let n = marks[CONDITION_COUNT] as usize;
    marks[CONDITION_VARIABLE + n] = variable as u16;
    marks[CONDITION_RELATION + n] = relation as u16;
    numbers[n] = constant;
    marks[CONDITION_COUNT] = n as u16 + 1;
}

// One mode and value more: counted at a place, the modes from `modes` on and the values from `values` on.
fn push_pair(
    marks: &mut [u16; MARKS],
    count: usize,
    modes: usize,
    values: usize,
    mode: u8,
    value: u16,
)
    requires { (count < MARKS)
        × (modes + natural_at marks.old count < MARKS) × (values + natural_at marks.old count < MARKS) }
    ensures { let n = natural_at marks.old count in
        marks.new ≡ set (set (set marks.old (modes + n) mode) (values + n) value) count (n + 1) }
{
    let n = marks[count] as usize;
    marks[modes + n] = mode as u16;
    marks[values + n] = value;
    marks[count] = n as u16 + 1;
}

// One P more.
pub fn push_mode_condition(marks: &mut [u16; MARKS], mode: u8, value: u16)
    requires { PartsFit 0 1 0 0 marks.old }
    ensures { (numbers : List ℤ) → length numbers ≡ NUMBERS
        → Says (with_mode_condition (row_is marks.old numbers) (mode, value)) marks.new numbers }
{
    push_pair(
        marks,
        MODE_CONDITION_COUNT,
        MODE_CONDITION_MODE,
        MODE_CONDITION_VALUE,
        mode,
        value,
    );
}

// One E more.
pub fn push_mode_effect(marks: &mut [u16; MARKS], mode: u8, value: u16)
    requires { PartsFit 0 0 1 0 marks.old }
    ensures { (numbers : List ℤ) → length numbers ≡ NUMBERS
        → Says (with_mode_effect (row_is marks.old numbers) (mode, value)) marks.new numbers }
{
    push_pair(
        marks,
        MODE_EFFECT_COUNT,
        MODE_EFFECT_MODE,
        MODE_EFFECT_VALUE,
        mode,
        value,
    );
}

// One + more.
pub fn push_addition(
    marks: &mut [u16; MARKS],
    numbers: &mut [i64; NUMBERS],
    variable: u8,
    amount: i64,
)
    requires { PartsFit 0 0 0 1 marks.old × (length numbers.old ≡ NUMBERS) }
    ensures { Says (with_addition (row_is marks.old numbers.old) (variable, amount)) marks.new numbers.new }
{
    let n = marks[ADDITION_COUNT] as usize;
    marks[ADDITION_VARIABLE + n] = variable as u16;
    numbers[ADDITION_AMOUNT + n] = amount;
    marks[ADDITION_COUNT] = n as u16 + 1;
}
