// Restricted plans run by run: the actions of an accepted file decoded into slots, each as its parts rows, and runs of one action in a plan:
// many steps at once where the action applies in the first state and still does behind them, else step by step.
//
// The tables are lent: two rows for each slot, and a tag, which says whose action stands there. A slot that holds another action is filled
// anew.
#![tactic(auto)]

ghost use Rattle.std.specs.Prelude.{◌≡◌, ◌*◌, ◌<◌, ◌≤◌, length, get_or};
ghost use Rattle.model.specs.Plans.{plan_numbers};
ghost use Rattle.file_parts.specs.Row.{row_is};
ghost use Rattle.restricted_step.specs.Steps.{state_of, CanTake};
ghost use Rattle.restricted_runs.specs.Repeats.{Leapt};
ghost use Rattle.restricted_runs.specs.Runs.{Counted, CanRun, Ran};
ghost use Rattle.restricted_runs.specs.Slots.{PlacesKept, Held, Kept};

use file_parts::{MARKS, NUMBERS};
use restricted_step::{MODES, VARIABLES};

// The most actions of a restricted task, and one more: where its goal stands.
pub const PLACES: usize = 16_385;

// Action k of the file is made to stand in a slot: where another stands there, its bytes are decoded into the slot.
pub fn keep_action(
    file: &[u8],
    places: &[usize],
    count: usize,
    tags: &mut [u16],
    marks: &mut [[u16; MARKS]],
    numbers: &mut [[i64; NUMBERS]],
    slot: usize,
    k: u16,
)
    requires { PlacesKept file.now places.now count × (k < count) × (slot < length tags.old)
        × Held file.now count tags.old marks.old numbers.old }
    ensures { Kept file.now count (length tags.old) slot k tags.new marks.new numbers.new }
{
    if tags[slot] == k {
        return;
    }
    let number = k as usize;
    let bytes = file_actions::part(file, places[number], places[number + 1]);
    file_actions::decode_restricted(bytes, &mut marks[slot], &mut numbers[slot]);
    tags[slot] = k;
}

// Fewer steps than these are taken one by one.
const SHORT: usize = 8;

// So many steps by an action at once, one at least: taken where the action applies before them and behind them, else none.
fn leap(
    values: &mut [i64; VARIABLES],
    modes: &mut [u16; MODES],
    marks: &[u16; MARKS],
    numbers: &[i64; NUMBERS],
    times: usize,
) -> usize
    requires { (0 < times) × (times ≤ 1000000) × CanTake values.old marks.now numbers.now }
    ensures { Leapt (row_is marks.now numbers.now) (state_of values.old modes.old)
        times result (state_of values.new modes.new) }
{
    if !restricted_step::holds(values, modes, marks, numbers) {
        return 0;
    }
    let values_before = *values;
    let modes_before = *modes;
    if restricted_step::add_times(values, marks, numbers, times) {
        restricted_step::set_all(modes, marks);
        if restricted_step::holds(values, modes, marks, numbers) {
            return times;
        }
    }
    *values = values_before;
    *modes = modes_before;
    0
}

// At most so many steps by an action, by leaps: all at once, else by ever smaller halves.
fn leap_far(
    values: &mut [i64; VARIABLES],
    modes: &mut [u16; MODES],
    marks: &[u16; MARKS],
    numbers: &[i64; NUMBERS],
    most: usize,
) -> usize
    requires { (most ≤ 1000000) × CanTake values.old marks.now numbers.now }
    ensures { Leapt (row_is marks.now numbers.now) (state_of values.old modes.old)
        most result (state_of values.new modes.new) }
{
    let mut taken: usize = 0;
    let mut times = most;
    while SHORT <= times {
        let leapt = leap(values, modes, marks, numbers, times);
        taken += leapt;
        times = (times / 2).min(most - taken);
    }
    taken
}

// How many numbers of a plan from step `from` on are k, which the first one is; where they are few, 1.
fn count_alike(plan: &[u8], from: usize, k: u16, steps: usize) -> usize
    requires { (steps ≡ length (plan_numbers plan.now)) × (2 * steps ≤ length plan.now) × (from < steps) × (get_or (plan_numbers plan.now) from 0 ≡ k) }
    ensures { Counted k plan.now from steps result }
{
    let left = steps - from;
    if left <= SHORT {
        return 1;
    }
    if plan_bytes::action_of(plan, from + SHORT) != k {
        return 1;
    }
    plan_bytes::matches_run(plan, from, k, left)
}

// The steps of a plan from step `from` on one by one, as long as they take action k: the step that takes another, or the one where the
// action doesn't apply.
fn take_steps(
    values: &mut [i64; VARIABLES],
    modes: &mut [u16; MODES],
    marks: &[u16; MARKS],
    numbers: &[i64; NUMBERS],
    k: u16,
    plan: &[u8],
    from: usize,
    steps: usize,
) -> Result<usize, usize>
    requires { CanRun values.old marks.now numbers.now k plan.now from steps }
    ensures { Ran (row_is marks.now numbers.now) (state_of values.old modes.old)
        k plan.now from steps result (state_of values.new modes.new) }
{
    for i in from..steps {
        if plan_bytes::action_of(plan, i) != k {
            return Ok(i);
        }
        if !restricted_step::take(values, modes, marks, numbers) {
            return Err(i);
        }
    }
    Ok(steps)
}

// The same, by leaps first.
fn take_many(
    values: &mut [i64; VARIABLES],
    modes: &mut [u16; MODES],
    marks: &[u16; MARKS],
    numbers: &[i64; NUMBERS],
    k: u16,
    plan: &[u8],
    from: usize,
    steps: usize,
) -> Result<usize, usize>
    requires { CanRun values.old marks.now numbers.now k plan.now from steps }
    ensures { Ran (row_is marks.now numbers.now) (state_of values.old modes.old)
        k plan.now from steps result (state_of values.new modes.new) }
{
    let alike = count_alike(plan, from, k, steps);
    let taken = leap_far(values, modes, marks, numbers, alike - 1);
    take_steps(values, modes, marks, numbers, k, plan, from + taken, steps)
}

// The steps of a plan from step `from` on, as long as they take action k. The first is taken by itself: most numbers are followed by another.
pub fn take_run(
    values: &mut [i64; VARIABLES],
    modes: &mut [u16; MODES],
    marks: &[u16; MARKS],
    numbers: &[i64; NUMBERS],
    k: u16,
    plan: &[u8],
    from: usize,
    steps: usize,
) -> Result<usize, usize>
    requires { CanRun values.old marks.now numbers.now k plan.now from steps }
    ensures { Ran (row_is marks.now numbers.now) (state_of values.old modes.old)
        k plan.now from steps result (state_of values.new modes.new) }
{
    if !restricted_step::take(values, modes, marks, numbers) {
        return Err(from);
    }
    let next = from + 1;
    if next == steps {
        return Ok(next);
    }
    if plan_bytes::action_of(plan, next) != k {
        return Ok(next);
    }
    take_many(values, modes, marks, numbers, k, plan, next, steps)
}
