// Actions of an accepted source task made ready for many steps, each as two rows of numbers, and a step by them in every state.
//
// A row says of every variable and of every mode between which values the action applies, so that a step goes through the declared
// variables and modes once, whatever conditions on one of them the action was written with. The weighted sums of all conditions of the task stand
// in a row of their own, each with the range that its condition asks for; an action names its own by the first and their count, and they are asked
// last. Rows are lent; what they mean is said in specs/Row.antt. It never reads a file, and never finds an action by its number.
#![tactic(auto)]

ghost use Rattle.std.specs.Prelude.{◌≡◌, ◌&&◌, List, ℕ, min, ◌+◌, ◌*◌, ◌≤◌, ◌<◌, length, take, ℤ, nat_abs};
ghost use Rattle.integers.specs.Parts.{Within};
ghost use Rattle.integers.specs.Relation.{between};
ghost use Rattle.model.specs.Steps.{integer_at, linear};
ghost use Rattle.source_step.specs.Step.{set_at, settled};
ghost use Rattle.source_step.specs.Row.{values_in, modes_in, modes_after, KeepOrSet, effect_count_at, constant_at, terms_at};
ghost use Rattle.source_step.specs.Row.{result_at, ResultsAre, SingleIs, first_outside, pairs_of, sum_at, sum_holds, sums_hold_from};
ghost use Rattle.source_step.specs.Row.{ValuesNear, WeightsSmall, Reads, Usable, held, Settled, Stepped, Finished};
ghost use Rattle.source_step.specs.Sizes.{VARIABLES, MODES, EFFECTS, SUMS};
ghost use Rattle.source_step.specs.Layout.{BLOCK, LOWER, UPPER};

use file_actions::{EFFECTS, TERMS};

// The most variables and modes that a source task declares.
pub const VARIABLES: usize = 8;

pub const MODES: usize = 4;

// Rows for the actions of a task and for its goal, and behind them that of its sums.
pub const ROWS: usize = 34;

pub const SUMS_ROW: usize = 33;

// How long the rows of an action are; that of the sums is as long as its numbers.
pub const MARKS: usize = 43;

pub const NUMBERS: usize = 40;

// How far the numbers of an effect stand behind those of the effect before, in either row.
pub const BLOCK: usize = 8;

// Where in the marks, of mode i: the least value is mark i; then the most, whether it is kept, and what it is set to.
pub const TOP: usize = 4;

pub const KEEP: usize = 8;

pub const PUT: usize = 12;

// How many effects the action has.
pub const MANY: usize = 16;

// Of the first effect: its kind, target, operand and count of terms, and the variable of term i.
pub const KIND: usize = 17;

pub const TARGET: usize = 18;

pub const OPERAND: usize = 19;

pub const COUNT: usize = 20;

pub const TERM: usize = 21;

// Which condition on a sum, of those of the task, is the first of the action's, and how many it has.
pub const SUM_FIRST: usize = 41;

pub const SUM_COUNT: usize = 42;

// Where in the numbers, of variable i: the least value is number i; then the most.
pub const MOST: usize = 8;

// Of the first effect: its constant, the weight of term i, and the bounds of its target.
pub const CONSTANT: usize = 16;

pub const WEIGHT: usize = 17;

pub const LOWER: usize = 21;

pub const UPPER: usize = 22;

// Where in the sums, of condition j: the weight of variable v is number VARIABLES × j + v; then the least and the most sum of which it holds.
pub const SUM_LEAST: usize = 32;

pub const SUM_MOST: usize = 36;

// The kinds of effect; any number past these is a residue.
pub const ADD: u16 = 0;

pub const LINEAR: u16 = 1;

pub const QUOTIENT: u16 = 2;

pub const RESIDUE: u16 = 3;

// Whether each of n values lies between what a row says.
fn values_in(values: &[i64; VARIABLES], n: usize, numbers: &[i64; NUMBERS]) -> bool
    requires { n ≤ VARIABLES }
    ensures { result ≡ values_in n numbers.now values.now }
{
    for i in 0..n {
        if !integers::is_between(numbers[i], values[i], numbers[MOST + i]) {
            return false;
        }
    }
    true
}

// Whether each of m modes does.
fn modes_in(modes: &[u16; MODES], m: usize, marks: &[u16; MARKS]) -> bool
    requires { m ≤ MODES }
    ensures { result ≡ modes_in m marks.now modes.now }
{
    for i in 0..m {
        if modes[i] < marks[i] || marks[TOP + i] < modes[i] {
            return false;
        }
    }
    true
}

// Sets the modes, of m, that an action sets: each stays, and else is what it is set to.
fn set_modes(modes: &mut [u16; MODES], m: usize, marks: &[u16; MARKS])
    requires { (m ≤ MODES) × (m ≤ length modes.old) × KeepOrSet marks.now }
    ensures { modes.new ≡ modes_after m marks.now modes.old }
{
    for i in 0..m {
        modes[i] = modes[i] * marks[KEEP + i] + marks[PUT + i];
    }
}

// The value of a variable, of n; 0 where it is not declared.
pub fn value_of(values: &[i64; VARIABLES], n: usize, variable: u16) -> i64
    requires { n ≤ VARIABLES }
    ensures { result ≡ integer_at (take n values.now) variable }
{
    let i = usize::from(variable);
    if i < n {
        return values[i];
    }
    0
}

// How many effects an action has.
pub fn effect_count(marks: &[u16; MARKS]) -> usize
    ensures { result ≡ effect_count_at marks.now }
{
    EFFECTS.min(usize::from(marks[MANY]))
}

// What effect e gives where it is an L.
pub fn linear_value(
    values: &[i64; VARIABLES],
    n: usize,
    marks: &[u16; MARKS],
    numbers: &[i64; NUMBERS],
    e: usize,
) -> i64
    requires { Reads n values.now marks.now numbers.now × (e < EFFECTS) }
    ensures { (result ≡ linear (constant_at numbers.now e) (terms_at marks.now numbers.now e)
        (integer_at (take n values.now))) × Within 1000000000 result }
{
    let count = TERMS.min(usize::from(marks[COUNT + BLOCK * e]));
    let mut sum = numbers[CONSTANT + BLOCK * e];
    for i in 0..count {
        let value = value_of(values, n, marks[TERM + BLOCK * e + i]);
        let weight = numbers[WEIGHT + BLOCK * e + i];
        sum += value * weight;
    }
    sum
}

// What sum j of the task comes to.
pub fn sum_of(values: &[i64; VARIABLES], n: usize, sums: &[i64; NUMBERS], j: usize) -> i64
    requires { (n ≤ VARIABLES) × ValuesNear n values.now × WeightsSmall sums.now × (j < SUMS) }
    ensures { (result ≡ sum_at n sums.now values.now j) × (nat_abs result ≤ VARIABLES * 400000000) }
{
    let mut sum: i64 = 0;
    for v in 0..n {
        let weight = sums[VARIABLES * j + v];
        sum += values[v] * weight;
    }
    sum
}

// Whether condition j on a sum holds.
fn sum_holds(values: &[i64; VARIABLES], n: usize, sums: &[i64; NUMBERS], j: usize) -> bool
    requires { (n ≤ VARIABLES) × ValuesNear n values.now × WeightsSmall sums.now × (j < SUMS) }
    ensures { result ≡ sum_holds n sums.now values.now j }
{
    let sum = sum_of(values, n, sums, j);
    integers::is_between(sums[SUM_LEAST + j], sum, sums[SUM_MOST + j])
}

// Whether each of so many does, from one on.
fn sums_hold(
    values: &[i64; VARIABLES],
    n: usize,
    sums: &[i64; NUMBERS],
    first: usize,
    count: usize,
) -> bool
    requires { (n ≤ VARIABLES) × ValuesNear n values.now × WeightsSmall sums.now × (first + count ≤ SUMS) }
    ensures { result ≡ sums_hold_from n sums.now values.now first count }
{
    if count < 1 {
        return true;
    }
    if !sum_holds(values, n, sums, first) {
        return false;
    }
    if count < 2 {
        return true;
    }
    if !sum_holds(values, n, sums, first + 1) {
        return false;
    }
    if count < 3 {
        return true;
    }
    if !sum_holds(values, n, sums, first + 2) {
        return false;
    }
    if count < 4 {
        return true;
    }
    sum_holds(values, n, sums, first + 3)
}

// Whether each of m modes and of n values lies between what the rows of an action say.
fn ranges_hold(
    values: &[i64; VARIABLES],
    modes: &[u16; MODES],
    n: usize,
    m: usize,
    marks: &[u16; MARKS],
    numbers: &[i64; NUMBERS],
) -> bool
    requires { (n ≤ VARIABLES) × (m ≤ MODES) }
    ensures { result ≡ (modes_in m marks.now modes.now && values_in n numbers.now values.now) }
{
    if !modes_in(modes, m, marks) {
        return false;
    }
    values_in(values, n, numbers)
}

// Whether a state of n variables and m modes is within the bounds of its task, and the conditions of an action hold in it.
pub fn holds(
    values: &[i64; VARIABLES],
    modes: &[u16; MODES],
    n: usize,
    m: usize,
    marks: &[u16; MARKS],
    numbers: &[i64; NUMBERS],
    sums: &[i64; NUMBERS],
) -> bool
    requires { (n ≤ VARIABLES) × (m ≤ MODES) × Usable n marks.now numbers.now sums.now }
    ensures { result ≡ held n m marks.now numbers.now sums.now values.now modes.now }
{
    if !ranges_hold(values, modes, n, m, marks, numbers) {
        return false;
    }
    if marks[SUM_COUNT] == 0 {
        return true;
    }
    let first = usize::from(marks[SUM_FIRST]);
    let count = usize::from(marks[SUM_COUNT]);
    sums_hold(values, n, sums, first, count)
}

// What effect e gives its target.
pub fn result_of(
    values: &[i64; VARIABLES],
    n: usize,
    marks: &[u16; MARKS],
    numbers: &[i64; NUMBERS],
    e: usize,
) -> i64
    requires { Reads n values.now marks.now numbers.now × (e < EFFECTS) }
    ensures { (result ≡ result_at n marks.now numbers.now values.now e) × Within 1000000000 result }
{
    let constant = numbers[CONSTANT + BLOCK * e];
    let kind = marks[KIND + BLOCK * e];
    if kind == ADD {
        return value_of(values, n, marks[TARGET + BLOCK * e]) + constant;
    }
    if kind == LINEAR {
        return linear_value(values, n, marks, numbers, e);
    }
    let operand = value_of(values, n, marks[OPERAND + BLOCK * e]);
    if kind == QUOTIENT {
        return integers::quotient(operand, constant);
    }
    integers::residue(operand, constant)
}

// What each of several effects gives its target, all from the values before.
fn put_results(
    results: &mut [i64; EFFECTS],
    values: &[i64; VARIABLES],
    n: usize,
    marks: &[u16; MARKS],
    numbers: &[i64; NUMBERS],
)
    requires { (length results.old ≡ EFFECTS) × Reads n values.now marks.now numbers.now }
    ensures { (length results.new ≡ EFFECTS)
        × ResultsAre n marks.now numbers.now values.now results.new }
{
    results[0] = result_of(values, n, marks, numbers, 0);
    results[1] = result_of(values, n, marks, numbers, 1);
    if effect_count(marks) < 3 {
        return;
    }
    results[2] = result_of(values, n, marks, numbers, 2);
}

// Whether what effect e gives lies within the bounds of its target.
fn stays(numbers: &[i64; NUMBERS], e: usize, res: i64) -> bool
    requires { e < EFFECTS }
    ensures { result ≡ between (integer_at numbers.now (LOWER + BLOCK * e)) (integer_at numbers.now (UPPER + BLOCK * e)) res }
{
    integers::is_between(numbers[LOWER + BLOCK * e], res, numbers[UPPER + BLOCK * e])
}

// How many effects stand before the first whose result leaves the bounds of its target; all where none does.
pub fn first_outside(
    marks: &[u16; MARKS],
    numbers: &[i64; NUMBERS],
    results: &[i64; EFFECTS],
) -> usize
    ensures { (n : ℕ) (values : List ℤ) → ResultsAre n marks.now numbers.now values results.now
        → result ≡ first_outside n marks.now numbers.now values }
{
    let count = effect_count(marks);
    if count < 1 || !stays(numbers, 0, results[0]) {
        return 0;
    }
    if count < 2 || !stays(numbers, 1, results[1]) {
        return 1;
    }
    if count < 3 || !stays(numbers, 2, results[2]) {
        return 2;
    }
    3
}

// Sets a variable, of n; nothing where it is not declared.
fn set_value(values: &mut [i64; VARIABLES], n: usize, variable: u16, value: i64)
    requires { n ≤ VARIABLES }
    ensures { values.new ≡ set_at n values.old variable value }
{
    let i = usize::from(variable);
    if i < n {
        values[i] = value;
    }
}

// Gives each target, one after the other, what is given.
fn store_results(
    values: &mut [i64; VARIABLES],
    n: usize,
    marks: &[u16; MARKS],
    results: &[i64; EFFECTS],
)
    requires { n ≤ VARIABLES }
    ensures { values.new ≡ settled n (pairs_of marks.now results.now) values.old }
{
    let count = effect_count(marks);
    if count < 1 {
        return;
    }
    set_value(values, n, marks[TARGET], results[0]);
    if count < 2 {
        return;
    }
    set_value(values, n, marks[TARGET + BLOCK], results[1]);
    if count < 3 {
        return;
    }
    set_value(values, n, marks[TARGET + 2 * BLOCK], results[2]);
}

// Gives the target of an action that has one effect at most what that gives, where it lies within the target's bounds. Whether it does.
fn settle(
    values: &mut [i64; VARIABLES],
    n: usize,
    marks: &[u16; MARKS],
    numbers: &[i64; NUMBERS],
    res: i64,
) -> bool
    requires { (n ≤ VARIABLES) × SingleIs n marks.now numbers.now values.old res }
    ensures { Settled n marks.now numbers.now values.old result values.new }
{
    if effect_count(marks) == 0 {
        return true;
    }
    if !stays(numbers, 0, res) {
        return false;
    }
    set_value(values, n, marks[TARGET], res);
    true
}

// The rest of a step behind the test of its rows, for an action that has one effect at most, from what that gives: where it lies within its
// target's bounds, the target has it and the modes are set; else the state stays. Whether it does.
pub fn finish_single(
    values: &mut [i64; VARIABLES],
    modes: &mut [u16; MODES],
    n: usize,
    m: usize,
    marks: &[u16; MARKS],
    numbers: &[i64; NUMBERS],
    res: i64,
) -> bool
    requires { (n ≤ VARIABLES) × (m ≤ MODES) × (length modes.old ≡ MODES) × KeepOrSet marks.now
        × SingleIs n marks.now numbers.now values.old res }
    ensures { Finished n m marks.now numbers.now values.old modes.old result
        values.new modes.new }
{
    if !settle(values, n, marks, numbers, res) {
        return false;
    }
    set_modes(modes, m, marks);
    true
}

// The same for any action, from what each effect gives: the results are all tested before one is stored.
pub fn finish(
    values: &mut [i64; VARIABLES],
    modes: &mut [u16; MODES],
    n: usize,
    m: usize,
    marks: &[u16; MARKS],
    numbers: &[i64; NUMBERS],
    results: &[i64; EFFECTS],
) -> bool
    requires { (n ≤ VARIABLES) × (m ≤ MODES) × (length modes.old ≡ MODES) × KeepOrSet marks.now
        × ResultsAre n marks.now numbers.now values.old results.now }
    ensures { Finished n m marks.now numbers.now values.old modes.old result
        values.new modes.new }
{
    let count = effect_count(marks);
    if count < 2 {
        return finish_single(values, modes, n, m, marks, numbers, results[0]);
    }
    if first_outside(marks, numbers, results) < count {
        return false;
    }
    store_results(values, n, marks, results);
    set_modes(modes, m, marks);
    true
}

// Takes the action of two rows in a lent state where it applies, and else leaves the state as it was. Whether it applies. The results of its
// effects are all worked out from the values before, then tested, then stored.
fn take_any(
    values: &mut [i64; VARIABLES],
    modes: &mut [u16; MODES],
    n: usize,
    m: usize,
    marks: &[u16; MARKS],
    numbers: &[i64; NUMBERS],
    sums: &[i64; NUMBERS],
) -> bool
    requires { (n ≤ VARIABLES) × (m ≤ MODES) × (length modes.old ≡ MODES) × Usable n marks.now numbers.now sums.now }
    ensures { Stepped n m marks.now numbers.now sums.now values.old modes.old result
        values.new modes.new }
{
    if !ranges_hold(values, modes, n, m, marks, numbers) {
        return false;
    }
    let first = usize::from(marks[SUM_FIRST]);
    let count = usize::from(marks[SUM_COUNT]);
    if !sums_hold(values, n, sums, first, count) {
        return false;
    }
    let mut results = [0i64; EFFECTS];
    put_results(&mut results, values, n, marks, numbers);
    finish(values, modes, n, m, marks, numbers, &results)
}

// The same of an action that has one effect at most. Where it has no condition on a sum, none is asked, and the result goes through no array.
pub fn take_single(
    values: &mut [i64; VARIABLES],
    modes: &mut [u16; MODES],
    n: usize,
    m: usize,
    marks: &[u16; MARKS],
    numbers: &[i64; NUMBERS],
    sums: &[i64; NUMBERS],
) -> bool
    requires { (n ≤ VARIABLES) × (m ≤ MODES) × (length modes.old ≡ MODES) × Usable n marks.now numbers.now sums.now
        × (effect_count_at marks.now ≤ 1) }
    ensures { Stepped n m marks.now numbers.now sums.now values.old modes.old result
        values.new modes.new }
{
    if marks[SUM_COUNT] != 0 {
        return take_any(values, modes, n, m, marks, numbers, sums);
    }
    if !ranges_hold(values, modes, n, m, marks, numbers) {
        return false;
    }
    let result = result_of(values, n, marks, numbers, 0);
    finish_single(values, modes, n, m, marks, numbers, result)
}

// The same of any action.
pub fn take(
    values: &mut [i64; VARIABLES],
    modes: &mut [u16; MODES],
    n: usize,
    m: usize,
    marks: &[u16; MARKS],
    numbers: &[i64; NUMBERS],
    sums: &[i64; NUMBERS],
) -> bool
    requires { (n ≤ VARIABLES) × (m ≤ MODES) × (length modes.old ≡ MODES) × Usable n marks.now numbers.now sums.now }
    ensures { Stepped n m marks.now numbers.now sums.now values.old modes.old result
        values.new modes.new }
{
    if effect_count(marks) < 2 {
        return take_single(values, modes, n, m, marks, numbers, sums);
    }
    take_any(values, modes, n, m, marks, numbers, sums)
}
