// What R keeps of the weighted sums that the conditions of a task measure, a variable for each: the U at which it starts, the C on it that a K
// becomes, and how much a lowered action adds to it: weight × d for every d that the action adds. The weights are lent, in the row of the task's sums
// (crate source_sums).
//
// It never reads a file and decodes no K. It knows no stage, and of a parts row only its C.
#![tactic(auto)]

ghost use Rattle.std.specs.Prelude.{◌≡◌, ◌+◌, ◌*◌, ◌≤◌, ◌<◌, length, take, nat_abs};
ghost use mathlib.Core.List.{flat_map};
ghost use Rattle.integers.specs.All.{All};
ghost use Rattle.lists.specs.Writing.{Room, Wrote};
ghost use Rattle.model.specs.Steps.{weigh};
ghost use Rattle.source_step.specs.Sizes.{VARIABLES};
ghost use Rattle.source_step.specs.Row.{weights_in, ValuesNear, WeightsSmall};
ghost use Rattle.file_parts.specs.Layout.{NUMBERS};
ghost use Rattle.file_parts.specs.Row.{row_is, PartsFit, Says};
ghost use Rattle.file_parts.specs.With.{with_conditions};
ghost use Rattle.file_actions.specs.Views.{sum_room, sums_is as conditions_is};
ghost use Rattle.model.specs.Sums.{on_kept, amount, added_to, sum_values};
ghost use Rattle.lowering_sums.specs.Views.{sums_in, ADDED, added_is, AddedSmall, most_added, most_part, Fits, start_bytes};

use file_actions::SumConditions;
use file_parts::{MARKS, NUMBERS};
use source_step::{NUMBERS as WEIGHTS, VARIABLES};

// The most + that go with one another into the kept variables.
pub const ADDED: usize = 4;

// Some + of an action: to each of the first `count` variables its amount.
#[derive(Clone, Copy)]
pub struct Added {
    pub count: usize,
    pub variables: [u8; ADDED],
    pub amounts: [i64; ADDED],
}

// What a + of so much on a variable adds to sum j.
fn kept_part(weights: &[i64; WEIGHTS], j: usize, variable: u8, d: i64) -> i64
    requires { (j < sum_room) × WeightsSmall weights.now × (nat_abs d ≤ most_added) }
    ensures { (result ≡ weigh (weights_in weights.now j) (amount d variable)) × (nat_abs result ≤ most_part) }
{
    let v = variable as usize;
    if v < VARIABLES {
        return d * weights[VARIABLES * j + v];
    }
    0
}

// What some + add to sum j together.
pub fn kept_amount(weights: &[i64; WEIGHTS], j: usize, added: Added) -> i64
    requires { (j < sum_room) × WeightsSmall weights.now × AddedSmall added }
    ensures { (result ≡ weigh (weights_in weights.now j) (added_to (added_is added))) × (nat_abs result ≤ ADDED * most_part) }
{
    let mut total = 0;
    for e in 0..added.count {
        total += kept_part(weights, j, added.variables[e], added.amounts[e]);
    }
    total
}

// To a row the C's that the K's of its action, or of the goal, become: on the kept variables numbered from `variable` on.
pub fn push_sums(
    marks: &mut [u16; MARKS],
    numbers: &mut [i64; NUMBERS],
    variable: u8,
    own: SumConditions,
)
    requires { PartsFit sum_room 0 0 0 marks.old × (length numbers.old ≡ NUMBERS) × (own.count ≤ sum_room) × (variable + sum_room ≤ 255) }
    ensures { Says (with_conditions (row_is marks.old numbers.old) (on_kept variable (conditions_is own)))
        marks.new numbers.new }
{
    for i in 0..own.count {
        let kept = variable + i as u8;
        file_parts::push_condition(
            marks,
            numbers,
            kept,
            own.places[i].relation,
            own.places[i].constant,
        );
    }
}

// The U of so many sums, where n variables start at the first of these values.
pub fn put_sum_starts(
    out: &mut [u8],
    at: usize,
    n: usize,
    starts: &[i64; VARIABLES],
    sums: usize,
    weights: &[i64; WEIGHTS],
) -> usize
    requires n_bound { (n ≤ VARIABLES) × ValuesNear n starts.now × (sums ≤ sum_room) × WeightsSmall weights.now }
    requires all { All Fits (sum_values (sums_in sums weights.now) (take n starts.now)) }
    requires room { Room out.old at (flat_map start_bytes (sum_values (sums_in sums weights.now) (take n starts.now))) }
    ensures { Wrote out.old at (flat_map start_bytes (sum_values (sums_in sums weights.now) (take n starts.now)))
        out.new result }
{
    let mut place = at;
    for j in 0..sums {
        let start = source_step::sum_of(starts, n, weights, j);
        let bits = integers::bits(start);
        place = commands::put_start(out, place, bits);
    }
    place
}
