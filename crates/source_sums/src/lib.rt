// The conditions on sums of a source task, gathered into one row of numbers: of each the weights of the variables, and between which sums it holds.
//
// They stand in the order of the file, those of the actions first, then those of the goal, and an action's marks name its own by the first and their
// count. What the row means is said in crate source_step, specs/Row.antt. It never takes a step, and decodes nothing of an action but its K.
#![tactic(auto)]

ghost use Rattle.std.specs.Prelude.{◌≡◌, ◌+◌, ◌≤◌, ◌<◌, length, set, replicate, pos, nat_abs};
ghost use Rattle.integers.specs.Relation.{relation_of};
ghost use Rattle.commands.specs.Table.{letter_k};
ghost use Rattle.model.specs.Limits.{source_limits};
ghost use Rattle.model.specs.Reading.{verdict_of};
ghost use Rattle.model.specs.Decoding.{sum_conditions_of};
ghost use Rattle.model.specs.ActionBytes.{action_part, decode_action};
ghost use Rattle.file_actions.specs.Places.{goal_from};
ghost use Rattle.file_actions.specs.Views.{sum_room, term_room, terms_is, sum_is, SumsDecoded};
ghost use Rattle.source_step.specs.Accepted.{AcceptedWith};
ghost use Rattle.source_step.specs.Sizes.{ACTIONS};
ghost use Rattle.source_step.specs.Layout.{MARKS, NUMBERS, sum_first, sum_count};
ghost use Rattle.source_sums.specs.Put.{Blank, TermSmall, SumSmall, OwnSmall, TermsPut, RangeIs, SumPut, SumsPut};
ghost use Rattle.source_sums.specs.Found.{has_byte, PlacesOf, SumsOf, SumsAsk};

use file_actions::{SumCondition, SumConditions, TERMS, Term};
use source_step::{MARKS, NUMBERS, SUM_COUNT, SUM_FIRST, SUM_LEAST, SUM_MOST, VARIABLES};

// For the offsets of all actions of a source file, 32 at most, and of the goal behind them.
pub const PLACES: usize = 33;

// What no sum of values of a source task passes.
const FARTHEST: i64 = 4_000_000_000;

// Into the row the weights of the first `count` terms, as sum j, of which it has none yet.
fn put_terms(sums: &mut [i64; NUMBERS], j: usize, count: usize, terms: [Term; TERMS])
    requires { (j < sum_room) × («count» ≤ term_room) × TermSmall «count» terms × Blank j sums.old }
    ensures { TermsPut j (terms_is «count» terms) sums.old sums.new }
{
    for i in 0..count {
        let term = terms[i];
        let at = VARIABLES * j + usize::from(term.variable);
        sums[at] += term.weight;
    }
}

// The least and the most sum of which a condition holds.
#[derive(Clone, Copy)]
struct Range {
    least: i64,
    most: i64,
}

// That of a relation to a constant, among the sums that there are.
fn range_of(relation: u8, constant: i64) -> Range
    requires { nat_abs constant ≤ 1000000000 }
    ensures { RangeIs (relation_of relation) constant result.least result.most }
{
    match relation {
        0 => Range {
            least: -FARTHEST,
            most: constant - 1,
        },
        1 => Range {
            least: -FARTHEST,
            most: constant,
        },
        2 => Range {
            least: constant,
            most: FARTHEST,
        },
        3 => Range {
            least: constant + 1,
            most: FARTHEST,
        },
        _ => Range {
            least: constant,
            most: constant,
        },
    }
}

// Into the row a condition on a sum, as that of number j.
fn put_sum(sums: &mut [i64; NUMBERS], j: usize, place: SumCondition)
    requires { (j < sum_room) × SumSmall place × Blank j sums.old }
    ensures { SumPut j (sum_is place) sums.old sums.new }
{
    put_terms(sums, j, place.term_count, place.terms);
    let range = range_of(place.relation, place.constant);
    sums[SUM_LEAST + j] = range.least;
    sums[SUM_MOST + j] = range.most;
}

// Those of an action or of the goal, behind so many.
pub fn put_sums(sums: &mut [i64; NUMBERS], from: usize, own: SumConditions)
    requires { (from + own.count ≤ sum_room) × OwnSmall own × Blank from sums.old }
    ensures { SumsPut from own sums.old sums.new }
{
    for i in 0..own.count {
        put_sum(sums, from + i, own.places[i]);
    }
}

// Into the marks of an action which are its own: so many from one on.
pub fn name_sums(marks: &mut [u16; MARKS], first: usize, count: usize)
    requires { (first + count ≤ sum_room) × (length marks.old ≡ MARKS) }
    ensures { marks.new ≡ set (set marks.old sum_first first) sum_count count }
{
    marks[SUM_FIRST] = first as u16;
    marks[SUM_COUNT] = count as u16;
}

// The K's of action k of a file with so many actions, which begin at these places.
pub fn action_sums(file: &[u8], places: &[usize; PLACES], count: usize, k: usize) -> SumConditions
    requires { PlacesOf file.now count places.now × (k < count) × (count ≤ ACTIONS) }
    ensures { SumsDecoded (sum_conditions_of (decode_action (action_part file.now k))) result }
{
    file_actions::decode_sums(file_actions::part(file, places[k], places[k + 1]))
}

// The K's of the goal, which stands at this place.
pub fn goal_sums(file: &[u8], place: usize) -> SumConditions
    ensures { SumsDecoded (sum_conditions_of (decode_action (goal_from file.now place))) result }
{
    file_actions::decode_sums(file_actions::goal_from(file, place))
}

// Whether the byte of a K stands anywhere in a file. Where it does not, none of its commands is one.
fn has_sum(file: &[u8]) -> bool
    ensures { result ≡ has_byte letter_k file.now }
{
    file.contains(&b'K')
}

// All conditions on sums of an accepted file with so many actions, into a row of zeros; how many they are. Where no byte of the file is a K's,
// there is none.
pub fn find_sums(
    file: &[u8],
    places: &[usize; PLACES],
    count: usize,
    sums: &mut [i64; NUMBERS],
) -> usize
    requires { AcceptedWith (verdict_of source_limits file.now) count × PlacesOf file.now count places.now × (sums.old ≡ replicate NUMBERS (pos 0)) }
    ensures { SumsOf file.now result sums.new × SumsAsk file.now count result sums.new }
{
    if !has_sum(file) {
        return 0;
    }
    let mut total: usize = 0;
    for k in 0..count {
        let own = action_sums(file, places, count, k);
        put_sums(sums, total, own);
        total += own.count;
    }
    let own = goal_sums(file, places[count]);
    put_sums(sums, total, own);
    total + own.count
}
