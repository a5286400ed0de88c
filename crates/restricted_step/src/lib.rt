// A step of a restricted action on a lent state, by the action's parts rows (crate file_parts).
//
// Since its task was accepted, a step tests nothing that the reader has: it goes through the conditions and effects that the action has,
// reads and writes the variables and modes that these name, and no others. It never reads a file, and never finds an action by its number.
#![tactic(auto)]

ghost use Rattle.std.specs.Prelude.{◌≡◌, cond, ◌≤◌};
ghost use Rattle.std.proofs.Math.Option.{none, some};
ghost use Rattle.model.specs.Steps.{set_all, modes_hold, conditions_hold, integer_at, natural_at, applies_restricted};
ghost use Rattle.file_parts.specs.Layout.{condition_room, mode_condition_room, mode_effect_room};
ghost use Rattle.file_parts.specs.Layout.{condition_count, condition_variable, mode_condition_count, mode_condition_mode, mode_effect_count, mode_effect_mode};
ghost use Rattle.file_parts.specs.Row.{conditions_in, mode_conditions_in, mode_effects_in, row_is};
ghost use Rattle.restricted_step.specs.Sizes.{VARIABLES, MODES};
ghost use Rattle.restricted_step.specs.Usable.{Named, Usable};
ghost use Rattle.restricted_step.specs.Steps.{state_of, step_by, summed, CanTake};

use file_parts::{
    ADDITION_AMOUNT, ADDITION_COUNT, ADDITION_VARIABLE, CONDITION_COUNT, CONDITION_RELATION,
    CONDITION_VARIABLE, MARKS, MODE_CONDITION_COUNT, MODE_CONDITION_MODE, MODE_CONDITION_VALUE,
    MODE_EFFECT_COUNT, MODE_EFFECT_MODE, MODE_EFFECT_VALUE, NUMBERS,
};

// The most variables and modes that a restricted task declares.
pub const VARIABLES: usize = 64;

pub const MODES: usize = 8;

// "a restricted one past that figure"
pub const FIGURE: u64 = 2_000_000_000_000_000;

// Whether every P of an action holds.
fn modes_hold(modes: &[u16; MODES], marks: &[u16; MARKS]) -> bool
    requires { Named mode_condition_room MODES marks.now mode_condition_count mode_condition_mode }
    ensures { result ≡ modes_hold (mode_conditions_in marks.now) (natural_at modes.now) }
{
    let count = marks[MODE_CONDITION_COUNT] as usize;
    for i in 0..count {
        if modes[marks[MODE_CONDITION_MODE + i] as usize] != marks[MODE_CONDITION_VALUE + i] {
            return false;
        }
    }
    true
}

// Whether every C of an action holds.
fn conditions_hold(
    values: &[i64; VARIABLES],
    marks: &[u16; MARKS],
    numbers: &[i64; NUMBERS],
) -> bool
    requires { Named condition_room VARIABLES marks.now condition_count condition_variable }
    ensures { result ≡ conditions_hold (conditions_in marks.now numbers.now) (integer_at values.now) }
{
    let count = marks[CONDITION_COUNT] as usize;
    for i in 0..count {
        let value = values[marks[CONDITION_VARIABLE + i] as usize];
        let relation = marks[CONDITION_RELATION + i];
        if !integers::relation_holds(value, relation, numbers[i]) {
            return false;
        }
    }
    true
}

// Whether the conditions of an action hold.
pub fn holds(
    values: &[i64; VARIABLES],
    modes: &[u16; MODES],
    marks: &[u16; MARKS],
    numbers: &[i64; NUMBERS],
) -> bool
    requires { Usable marks.now numbers.now }
    ensures { result ≡ applies_restricted (row_is marks.now numbers.now) (state_of values.now modes.now) }
{
    modes_hold(modes, marks) && conditions_hold(values, marks, numbers)
}

// Every + of an action so many times, as long as no sum passes the figure. Whether none does; where one does, the values are spent.
pub fn add_times(
    values: &mut [i64; VARIABLES],
    marks: &[u16; MARKS],
    numbers: &[i64; NUMBERS],
    times: usize,
) -> bool
    requires { CanTake values.old marks.now numbers.now × (times ≤ 1000000) }
    ensures { cond result (some values.new) none ≡ summed times (row_is marks.now numbers.now) values.old }
{
    let count = marks[ADDITION_COUNT] as usize;
    let many = times as i64;
    for i in 0..count {
        let variable = marks[ADDITION_VARIABLE + i] as usize;
        let sum = values[variable] + many * numbers[ADDITION_AMOUNT + i];
        if !integers::is_within(sum, FIGURE) {
            return false;
        }
        values[variable] = sum;
    }
    true
}

// Every E of an action.
pub fn set_all(modes: &mut [u16; MODES], marks: &[u16; MARKS])
    requires { Named mode_effect_room MODES marks.now mode_effect_count mode_effect_mode }
    ensures { modes.new ≡ set_all (mode_effects_in marks.now) modes.old }
{
    let count = marks[MODE_EFFECT_COUNT] as usize;
    for i in 0..count {
        modes[marks[MODE_EFFECT_MODE + i] as usize] = marks[MODE_EFFECT_VALUE + i];
    }
}

// Takes the action of two rows in a lent state. Whether it applies; where it doesn't, the state is spent.
pub fn take(
    values: &mut [i64; VARIABLES],
    modes: &mut [u16; MODES],
    marks: &[u16; MARKS],
    numbers: &[i64; NUMBERS],
) -> bool
    requires { CanTake values.old marks.now numbers.now }
    ensures { cond result (some (state_of values.new modes.new)) none
        ≡ step_by (row_is marks.now numbers.now) (state_of values.old modes.old) }
{
    if !holds(values, modes, marks, numbers) {
        return false;
    }
    if !add_times(values, marks, numbers, 1) {
        return false;
    }
    set_all(modes, marks);
    true
}
