// What a source step becomes in R: its opening once, then for each stage of its macro a run of the falling or of the rising action, and the
// turn. The strokes say how long each run is, one signed number a stage, so they give the price of the step and its numbers in R; what its
// effects give is found on the way. Expanding writes these runs, projecting compares a plan with them.
//
// Strokes go by the values before the step, into lent times. It never reads a file or a plan's action numbers.
#![tactic(auto)]

ghost use Rattle.std.specs.Prelude.{◌≡◌, true, [], ◌∷◌, ◌+◌, ◌≤◌, ◌<◌, length, take, drop, ℤ};
ghost use Rattle.integers.specs.Division.{unit_less, floor, quotient_of};
ghost use Rattle.integers.specs.Parts.{Within, EachWithin};
ghost use Rattle.lists.specs.Writing.{Room, Wrote};
ghost use Rattle.model.specs.Plans.{plan_bytes_of, plan_numbers};
ghost use Rattle.model.specs.Following.{agreeing};
ghost use Rattle.model.specs.Steps.{integer_at};
ghost use Rattle.source_step.specs.Row.{effect_count_at, kind_at, pairs_of, Reads, Usable};
ghost use Rattle.plan_strokes.specs.Strokes.{set_strokes, stage_steps, macro_steps, step_numbers, price_of_strokes};
ghost use Rattle.plan_strokes.specs.Made.{More, TermsMade, ResultMade, HeldMade, StrokesMade, MacroIs, RunOf, Turned, priced};
ghost use Rattle.plan_strokes.specs.Opening.{EffectSized, Sized, Opened};
ghost use Rattle.source_step.specs.Sizes.{VARIABLES, MODES, EFFECTS};
ghost use Rattle.plan_strokes.specs.Strokes.{STAGES};

use file_actions::{EFFECTS, TERMS};
use source_step::{
    ADD, BLOCK, CONSTANT, COUNT, KIND, LINEAR, MARKS, MODES, NUMBERS, OPERAND, QUOTIENT, TARGET,
    TERM, VARIABLES,
};

// The most stages of a macro.
pub const STAGES: usize = 33;

// How many actions a stage has, and which of them is the turn.
const STAGE: u16 = 3;

const TURN: u16 = 2;

// Whether the action of a row becomes a macro: it has several effects, or one that is no +.
pub fn makes_macro(marks: &[u16; MARKS]) -> bool
    ensures { MacroIs marks.now result }
{
    let count = source_step::effect_count(marks);
    if count == 1 {
        return marks[KIND] != ADD;
    }
    1 < count
}

// A stroke behind the first `at`; and how many there are then.
fn put_one(times: &mut [i64; STAGES], at: usize, z: i64) -> usize
    requires { (at < STAGES) × (length times.old ≡ STAGES) }
    ensures { More times.old at (z ∷ []) times.new result }
{
    times[at] = z;
    at + 1
}

// Two strokes.
fn put_two(times: &mut [i64; STAGES], at: usize, first: i64, second: i64) -> usize
    requires { (at + 1 < STAGES) × (length times.old ≡ STAGES) }
    ensures { More times.old at (first ∷ second ∷ []) times.new result }
{
    let next = put_one(times, at, first);
    put_one(times, next, second)
}

// The strokes of the terms of an L, effect e of a row: each drained and filled again.
fn put_terms(
    times: &mut [i64; STAGES],
    at: usize,
    values: &[i64; VARIABLES],
    n: usize,
    marks: &[u16; MARKS],
    e: usize,
) -> usize
    requires { (at ≤ 24) × (length times.old ≡ STAGES) × (n ≤ VARIABLES) × (e < EFFECTS) }
    ensures { TermsMade marks.now e (integer_at (take n values.now)) times.old at times.new result }
{
    let block = BLOCK * e;
    let k = TERMS.min(marks[COUNT + block] as usize);
    let mut count = at;
    for i in 0..k {
        let value = source_step::value_of(values, n, marks[TERM + block + i]);
        count = put_two(times, count, value, value);
    }
    count
}

// How often Divide goes, from the quotient: the operand divided by |c|, rounded down.
fn divide_strokes(quotient: i64, c: i64) -> i64
    requires { Within 10000 quotient }
    ensures { (y : ℤ) → quotient ≡ quotient_of y c → result ≡ floor y (unit_less c) }
{
    if 0 <= c {
        return quotient;
    }
    -quotient
}

// The strokes of a Q or R, effect e of a row, before Clear: the operand drained and filled again, what Divide counts, what Empty takes away;
// and what the effect gives.
fn put_divided(
    times: &mut [i64; STAGES],
    at: usize,
    values: &[i64; VARIABLES],
    n: usize,
    marks: &[u16; MARKS],
    numbers: &[i64; NUMBERS],
    e: usize,
) -> usize
    requires { (at ≤ 24) × (length times.old ≡ STAGES) × Reads n values.now marks.now numbers.now × (e < EFFECTS) × (2 ≤ kind_at marks.now e) }
    ensures { ResultMade n marks.now numbers.now values.now e times.old at times.new result }
{
    let block = BLOCK * e;
    let y = source_step::value_of(values, n, marks[OPERAND + block]);
    let c = numbers[CONSTANT + block];
    let quotient = integers::quotient(y, c);
    let residue = integers::residue(y, c);
    let drained = put_two(times, at, y, y);
    let divided = put_one(times, drained, divide_strokes(quotient, c));
    if marks[KIND + block] == QUOTIENT {
        return put_two(times, divided, residue, quotient);
    }
    put_two(times, divided, quotient, residue)
}

// The strokes of effect e of a row before Clear, and what it gives.
fn put_result(
    times: &mut [i64; STAGES],
    at: usize,
    values: &[i64; VARIABLES],
    n: usize,
    marks: &[u16; MARKS],
    numbers: &[i64; NUMBERS],
    e: usize,
) -> usize
    requires { (at ≤ 24) × (length times.old ≡ STAGES) × Reads n values.now marks.now numbers.now × (e < EFFECTS) }
    ensures { ResultMade n marks.now numbers.now values.now e times.old at times.new result }
{
    let block = BLOCK * e;
    let kind = marks[KIND + block];
    if kind == ADD {
        let before = source_step::value_of(values, n, marks[TARGET + block]);
        let drained = put_two(times, at, before, before);
        let sum = source_step::result_of(values, n, marks, numbers, e);
        return put_one(times, drained, sum);
    }
    if kind == LINEAR {
        let drained = put_terms(times, at, values, n, marks, e);
        let sum = source_step::linear_value(values, n, marks, numbers, e);
        return put_one(times, drained, sum);
    }
    put_divided(times, at, values, n, marks, numbers, e)
}

// The strokes of the effects of a row up to the last Move into a hold; and what the effects give.
fn put_held(
    times: &mut [i64; STAGES],
    results: &mut [i64; EFFECTS],
    values: &[i64; VARIABLES],
    n: usize,
    marks: &[u16; MARKS],
    numbers: &[i64; NUMBERS],
    count: usize,
) -> usize
    requires { (length times.old ≡ STAGES) × (length results.old ≡ EFFECTS) × Reads n values.now marks.now numbers.now
        × (count ≡ effect_count_at marks.now) }
    ensures { HeldMade n marks.now numbers.now values.now times.new results.new result }
{
    let mut place: usize = 0;
    for e in 0..count {
        place = put_result(times, place, values, n, marks, numbers, e);
        let last = place - 1;
        results[e] = times[last];
    }
    place
}

// The strokes behind those: each target cleared, and the Move of its result from its hold.
fn put_sets(
    times: &mut [i64; STAGES],
    at: usize,
    results: &[i64; EFFECTS],
    values: &[i64; VARIABLES],
    n: usize,
    marks: &[u16; MARKS],
    count: usize,
) -> usize
    requires { (at ≤ 27) × (length times.old ≡ STAGES) × (length results.now ≡ EFFECTS) × (n ≤ VARIABLES) × (count ≡ effect_count_at marks.now) }
    ensures { More times.old at (set_strokes (pairs_of marks.now results.now) (integer_at (take n values.now)))
        times.new result }
{
    let mut place = at;
    for e in 0..count {
        let before = source_step::value_of(values, n, marks[TARGET + BLOCK * e]);
        place = put_two(times, place, before, results[e]);
    }
    place
}

// The strokes of the single effect of a row, which makes a macro, and what it gives. The result stays where the stages before Clear leave it,
// so that Clear takes the place of the Move into a hold.
fn put_single(
    times: &mut [i64; STAGES],
    results: &mut [i64; EFFECTS],
    values: &[i64; VARIABLES],
    n: usize,
    marks: &[u16; MARKS],
    numbers: &[i64; NUMBERS],
) -> usize
    requires { (length times.old ≡ STAGES) × (length results.old ≡ EFFECTS) × Reads n values.now marks.now numbers.now
        × MacroIs marks.now true × (effect_count_at marks.now ≡ 1) }
    ensures { StrokesMade n marks.now numbers.now values.now times.new results.new result }
{
    let behind = put_result(times, 0, values, n, marks, numbers, 0);
    let last = behind - 1;
    let result = times[last];
    results[0] = result;
    let before = source_step::value_of(values, n, marks[TARGET]);
    put_two(times, last, before, result)
}

// The strokes of the effects of a row, over the values before the step, at the front of lent times, and how many there are: none where the
// action stays one. What the effects give goes into lent results.
pub fn put_strokes(
    times: &mut [i64; STAGES],
    results: &mut [i64; EFFECTS],
    values: &[i64; VARIABLES],
    n: usize,
    marks: &[u16; MARKS],
    numbers: &[i64; NUMBERS],
) -> usize
    requires { (length times.old ≡ STAGES) × (length results.old ≡ EFFECTS) × Reads n values.now marks.now numbers.now }
    ensures { StrokesMade n marks.now numbers.now values.now times.new results.new result }
{
    if !makes_macro(marks) {
        results[0] = source_step::result_of(values, n, marks, numbers, 0);
        return 0;
    }
    let count = source_step::effect_count(marks);
    if count == 1 {
        return put_single(times, results, values, n, marks, numbers);
    }
    let held = put_held(times, results, values, n, marks, numbers, count);
    put_sets(times, held, results, values, n, marks, count)
}

// The price of a step with so many strokes: its opening, and for each stage its strokes and its turn.
pub fn price_of(times: &[i64; STAGES], count: usize) -> u64
    requires { (count ≤ STAGES) × (length times.now ≡ STAGES) × EachWithin 1000000000 (take count times.now) }
    ensures { (result ≡ price_of_strokes (take count times.now)) × (result ≤ 40000000000) }
{
    let mut price: u64 = 1;
    for z in &times[..count] {
        price += z.unsigned_abs() + 1;
    }
    price
}

// A price, and whether it is that of a step that was taken.
fn priced(applied: bool, price: u64) -> Result<u64, u64>
    ensures { result ≡ priced applied price }
{
    if applied { Ok(price) } else { Err(price) }
}

// Takes the action of two rows in a lent state where it applies, and else leaves the state as it was. The price is counted from the values before:
// an action that stays one costs 1, without strokes. Where the action does not apply the error is what it would cost, 0 where the test of its row
// fails. The times are lent for strokes.
pub fn take_priced(
    values: &mut [i64; VARIABLES],
    modes: &mut [u16; MODES],
    n: usize,
    m: usize,
    marks: &[u16; MARKS],
    numbers: &[i64; NUMBERS],
    sums: &[i64; NUMBERS],
    times: &mut [i64; STAGES],
) -> Result<u64, u64>
    requires n_bound { (n ≤ VARIABLES) × (m ≤ MODES) × (length modes.old ≡ MODES) × (length times.old ≡ STAGES) }
    requires usable { Usable n marks.now numbers.now sums.now }
    ensures turned { Turned n m marks.now numbers.now sums.now values.old modes.old result
        values.new modes.new }
    ensures times_len { length times.new ≡ STAGES }
{
    if !source_step::holds(values, modes, n, m, marks, numbers, sums) {
        return Err(0);
    }
    if !makes_macro(marks) {
        let result = source_step::result_of(values, n, marks, numbers, 0);
        let applied = source_step::finish_single(values, modes, n, m, marks, numbers, result);
        return priced(applied, 1);
    }
    let mut results = [0i64; EFFECTS];
    let count = put_strokes(times, &mut results, values, n, marks, numbers);
    let price = price_of(times, count);
    let applied = source_step::finish(values, modes, n, m, marks, numbers, &results);
    priced(applied, price)
}

// A number so many times.
#[derive(Clone, Copy)]
struct Run {
    number: u16,
    count: usize,
}

// The strokes of a stage as a run, its actions being numbered from `first`.
fn run_of(first: u16, z: i64) -> Run
    requires { first + 2 < 65536 }
    ensures { RunOf first z result }
{
    let number = if 0 <= z { first } else { first + 1 };
    Run {
        number,
        count: z.unsigned_abs() as usize,
    }
}

// Writes the steps of a stage: its strokes, then its turn.
fn put_stage(out: &mut [u8], at: usize, first: u16, z: i64) -> usize
    requires first_bound { first + 2 < 65536 }
    requires room { Room out.old at (plan_bytes_of (stage_steps first z)) }
    ensures { Wrote out.old at (plan_bytes_of (stage_steps first z)) out.new result }
{
    let run = run_of(first, z);
    let place = lists::fill_run(out, at, run.number, run.count);
    lists::put_number(out, place, (first + TURN) as u32, 2)
}

// Writes the steps of all stages, the first one's actions being numbered from `first`.
fn put_stages(out: &mut [u8], at: usize, first: u16, times: &[i64; STAGES], count: usize) -> usize
    requires first_bound { (first ≤ 65001) × (count ≤ STAGES) × (length times.now ≡ STAGES) }
    requires room { Room out.old at (plan_bytes_of (macro_steps first (take count times.now))) }
    ensures { Wrote out.old at (plan_bytes_of (macro_steps first (take count times.now))) out.new result }
{
    let mut place = at;
    let mut number = first;
    for z in &times[..count] {
        place = put_stage(out, place, number, *z);
        number += STAGE;
    }
    place
}

// Writes all that a source step becomes, from the number of its opening and its strokes.
pub fn put_step(
    out: &mut [u8],
    at: usize,
    opening: u16,
    times: &[i64; STAGES],
    count: usize,
) -> usize
    requires opening_bound { (opening ≤ 65000) × (count ≤ STAGES) × (length times.now ≡ STAGES) }
    requires room { Room out.old at (plan_bytes_of (step_numbers opening (take count times.now))) }
    ensures { Wrote out.old at (plan_bytes_of (step_numbers opening (take count times.now))) out.new result }
{
    let place = lists::put_number(out, at, opening as u32, 2);
    put_stages(out, place, opening + 1, times, count)
}

// How many numbers from step `at` of a plan on are the steps of a stage.
fn matches_stage(plan: &[u8], at: usize, first: u16, z: i64) -> usize
    requires { (first + 2 < 65536) × (at ≤ length (plan_numbers plan.now)) }
    ensures { result ≡ agreeing (stage_steps first z) (drop at (plan_numbers plan.now)) }
{
    let run = run_of(first, z);
    let strokes = plan_bytes::matches_run(plan, at, run.number, run.count);
    if strokes < run.count {
        return strokes;
    }
    strokes + plan_bytes::matches_run(plan, at + strokes, first + TURN, 1)
}

// How many are the steps of all stages, the first one's actions being numbered from `first`.
fn matches_stages(plan: &[u8], at: usize, first: u16, times: &[i64; STAGES], count: usize) -> usize
    requires { (first ≤ 65001) × (count ≤ STAGES) × (length times.now ≡ STAGES) × (at ≤ length (plan_numbers plan.now)) }
    ensures { result ≡ agreeing (macro_steps first (take count times.now)) (drop at (plan_numbers plan.now)) }
{
    let mut matched: usize = 0;
    let mut number = first;
    for z in &times[..count] {
        let run = run_of(number, *z);
        let stage = matches_stage(plan, at + matched, number, *z);
        matched += stage;
        if stage <= run.count {
            return matched;
        }
        number += STAGE;
    }
    matched
}

// How many numbers from step `at` of a plan on are what a source step becomes.
pub fn matches_step(
    plan: &[u8],
    at: usize,
    opening: u16,
    times: &[i64; STAGES],
    count: usize,
) -> usize
    requires { (opening ≤ 65000) × (count ≤ STAGES) × (length times.now ≡ STAGES) × (at ≤ length (plan_numbers plan.now)) }
    ensures { result ≡ agreeing (step_numbers opening (take count times.now)) (drop at (plan_numbers plan.now)) }
{
    let opened = plan_bytes::matches_run(plan, at, opening, 1);
    if opened == 0 {
        return 0;
    }
    1 + matches_stages(plan, at + 1, opening + 1, times, count)
}

// Room for the numbers of the openings of a task's actions, and for the count of all.
pub const ENTRIES: usize = 33;

// The number of the first restricted action of each source action, and behind the last the count of all.
#[derive(Clone, Copy)]
pub struct Openings {
    pub numbers: [u16; ENTRIES],
}

// How many restricted actions effect e of a row becomes where there are several: the stages before Clear, Clear, and two Moves. At most 33.
fn effect_size(marks: &[u16; MARKS], e: usize) -> u16
    requires { e < EFFECTS }
    ensures { EffectSized marks.now e result }
{
    let block = BLOCK * e;
    let kind = marks[KIND + block];
    if kind == ADD {
        return 15;
    }
    if kind == LINEAR {
        return 9 + 6 * TERMS.min(marks[COUNT + block] as usize) as u16;
    }
    21
}

// How many restricted actions the action of a row becomes: at most 100. A single effect has no Move into a hold.
fn macro_size(marks: &[u16; MARKS]) -> u16
    ensures { Sized marks.now result }
{
    if !makes_macro(marks) {
        return 1;
    }
    let count = source_step::effect_count(marks);
    let mut size: u16 = 1;
    for e in 0..count {
        size += effect_size(marks, e);
    }
    if count == 1 {
        return size - STAGE;
    }
    size
}

// The number of the first restricted action of each source action, and behind the last the count of all.
pub fn openings_of(count: usize, marks: &[[u16; MARKS]]) -> Openings
    requires { (count ≤ 32) × (count ≤ length marks.now) }
    ensures { Opened marks.now count result.numbers }
{
    let mut o = Openings {
        numbers: [0; ENTRIES],
    };
    let mut next: u16 = 0;
    for k in 0..count {
        next += macro_size(&marks[k]);
        o.numbers[k + 1] = next;
    }
    o
}
