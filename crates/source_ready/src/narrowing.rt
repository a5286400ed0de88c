// Between which values an action of a source task applies, and what it sets modes to, written into the rows of the action.
//
// A row begins with the bounds of the task. Each condition of the action's parts row narrows it, and each mode effect marks it. What rows mean
// is said in crate source_step, specs/Row.antt; where parts stand in a parts row, in crate file_parts. The numeric effects are not known here.
ghost use Rattle.std.specs.Prelude.{◌≡◌, ◌+◌, ◌<◌, ◌≤◌, length, nat_abs};
ghost use Rattle.integers.specs.Relation.{relation_of};
ghost use Rattle.model.specs.Limits.{source_limits};
ghost use Rattle.file_parts.specs.Layout.{mode_condition_room, mode_condition_count, mode_condition_mode};
ghost use Rattle.file_parts.specs.Layout.{mode_effect_room, mode_effect_count, mode_effect_mode};
ghost use Rattle.file_parts.specs.Row.{conditions_in, mode_conditions_in, mode_effects_in};
ghost use Rattle.file_actions.specs.Within.{ConditionsWithin};
ghost use Rattle.source_step.specs.Sizes.{VARIABLES, MODES};
ghost use Rattle.source_step.specs.Layout.{MARKS, NUMBERS};
ghost use Rattle.source_ready.specs.Narrowed.{narrowed, narrowed_all, held, held_all, marked, marked_all};
ghost use Rattle.source_ready.specs.Narrowed.{Indexed, ModesIndexed, SizesFit, BoundsPut, RangesPut, SizesPut, ModesPut};

use file_parts::{
    CONDITION_COUNT, CONDITION_RELATION, CONDITION_VARIABLE, MARKS as PART_MARKS,
    MODE_CONDITION_COUNT, MODE_CONDITION_MODE, MODE_CONDITION_VALUE, MODE_EFFECT_COUNT,
    MODE_EFFECT_MODE, MODE_EFFECT_VALUE, NUMBERS as PART_NUMBERS,
};
use source_step::{KEEP, MARKS, MODES, MOST, NUMBERS, PUT, TOP, VARIABLES};

// Narrows the values of a variable to those that a C holds of.
fn narrow(numbers: &mut [i64; NUMBERS], variable: u16, relation: u16, constant: i64)
    requires { (variable < VARIABLES) × (nat_abs constant ≤ 10000) }
    ensures { numbers.new ≡ narrowed (relation_of relation) numbers.old variable constant }
{
    let least = usize::from(variable);
    let most = MOST + least;
    match relation {
        0 => numbers[most] = numbers[most].min(constant - 1),
        1 => numbers[most] = numbers[most].min(constant),
        2 => numbers[least] = numbers[least].max(constant),
        3 => numbers[least] = numbers[least].max(constant + 1),
        _ => {
            numbers[least] = numbers[least].max(constant);
            numbers[most] = numbers[most].min(constant);
        }
    }
}

// Likewise every C of a parts row.
fn narrow_all(
    numbers: &mut [i64; NUMBERS],
    parts: &[u16; PART_MARKS],
    constants: &[i64; PART_NUMBERS],
)
    requires { ConditionsWithin source_limits VARIABLES parts.now constants.now }
    ensures { numbers.new ≡ narrowed_all (conditions_in parts.now constants.now) numbers.old }
{
    let count = usize::from(parts[CONDITION_COUNT]);
    for i in 0..count {
        narrow(
            numbers,
            parts[CONDITION_VARIABLE + i],
            parts[CONDITION_RELATION + i],
            constants[i],
        );
    }
}

// The bounds of a task, at the front of a row.
fn put_bounds(numbers: &mut [i64; NUMBERS], lower: &[i64; VARIABLES], upper: &[i64; VARIABLES])
    requires { length numbers.old ≡ NUMBERS }
    ensures { BoundsPut VARIABLES lower.now upper.now numbers.old numbers.new }
{
    for i in 0..VARIABLES {
        numbers[i] = lower[i];
        numbers[MOST + i] = upper[i];
    }
}

// Between which values of the variables an action with these parts applies, in a task with these bounds.
pub fn put_ranges(
    numbers: &mut [i64; NUMBERS],
    lower: &[i64; VARIABLES],
    upper: &[i64; VARIABLES],
    parts: &[u16; PART_MARKS],
    constants: &[i64; PART_NUMBERS],
)
    requires { (length numbers.old ≡ NUMBERS) × ConditionsWithin source_limits VARIABLES parts.now constants.now }
    ensures { RangesPut lower.now upper.now
        (conditions_in parts.now constants.now) numbers.old numbers.new }
{
    put_bounds(numbers, lower, upper);
    narrow_all(numbers, parts, constants);
}

// Narrows the values of a mode to that of a P.
fn hold(marks: &mut [u16; MARKS], mode: u16, value: u16)
    requires { mode < MODES }
    ensures { marks.new ≡ held marks.old mode value }
{
    let i = usize::from(mode);
    marks[i] = marks[i].max(value);
    marks[TOP + i] = marks[TOP + i].min(value);
}

// Likewise every P of a parts row.
fn hold_all(marks: &mut [u16; MARKS], parts: &[u16; PART_MARKS])
    requires { Indexed MODES mode_condition_room mode_condition_count mode_condition_mode parts.now }
    ensures { marks.new ≡ held_all (mode_conditions_in parts.now) marks.old }
{
    let count = usize::from(parts[MODE_CONDITION_COUNT]);
    for i in 0..count {
        hold(
            marks,
            parts[MODE_CONDITION_MODE + i],
            parts[MODE_CONDITION_VALUE + i],
        );
    }
}

// Marks a mode as set by an E.
fn mark(marks: &mut [u16; MARKS], mode: u16, value: u16)
    requires { mode < MODES }
    ensures { marks.new ≡ marked marks.old mode value }
{
    let i = usize::from(mode);
    marks[KEEP + i] = 0;
    marks[PUT + i] = value;
}

// Likewise every E of a parts row.
fn mark_all(marks: &mut [u16; MARKS], parts: &[u16; PART_MARKS])
    requires { Indexed MODES mode_effect_room mode_effect_count mode_effect_mode parts.now }
    ensures { marks.new ≡ marked_all (mode_effects_in parts.now) marks.old }
{
    let count = usize::from(parts[MODE_EFFECT_COUNT]);
    for i in 0..count {
        mark(
            marks,
            parts[MODE_EFFECT_MODE + i],
            parts[MODE_EFFECT_VALUE + i],
        );
    }
}

// The modes of a task of m modes: each may have every value below its size, and stays.
fn put_sizes(marks: &mut [u16; MARKS], m: usize, sizes: &[u16; MODES])
    requires { (length marks.old ≡ MARKS) × SizesFit m sizes.now }
    ensures { SizesPut m sizes.now marks.old marks.new }
{
    for i in 0..m {
        marks[TOP + i] = sizes[i] - 1;
        marks[KEEP + i] = 1;
    }
}

// Between which values of the modes an action with these parts applies, and what it sets them to, in a task with m modes of these sizes.
pub fn put_modes(
    marks: &mut [u16; MARKS],
    m: usize,
    sizes: &[u16; MODES],
    parts: &[u16; PART_MARKS],
)
    requires { (length marks.old ≡ MARKS) × SizesFit m sizes.now × ModesIndexed parts.now }
    ensures { ModesPut m sizes.now
        (mode_conditions_in parts.now) (mode_effects_in parts.now) marks.old marks.new }
{
    put_sizes(marks, m, sizes);
    hold_all(marks, parts);
    mark_all(marks, parts);
}
