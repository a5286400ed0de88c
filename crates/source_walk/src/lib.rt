// Plans on a source task: a file and a plan opened, the task made ready for steps, and its steps taken, and priced, by the rows of its actions;
// from that what judging and pricing a plan answer.
//
// What a step by rows is, is said in crate source_step. It writes nothing but the arrays of its callers.
#![tactic(auto)]

ghost use Rattle.std.specs.Prelude.{◌≡◌, ◌≤◌, length, replicate, pos};
ghost use Rattle.answers.specs.Refusals.{refusal_is, answer_of};
ghost use Rattle.model.specs.Judging.{judge_source, price_plan};
ghost use Rattle.model.specs.Plans.{plan_numbers};
ghost use Rattle.model.specs.Limits.{source_limits};
ghost use Rattle.model.specs.Reading.{verdict_of};
ghost use Rattle.source_step.specs.Step.{state};
ghost use Rattle.source_step.specs.Accepted.{AcceptedWith};
ghost use Rattle.source_step.specs.Row.{Usable};
ghost use Rattle.source_step.specs.Ready.{blank_marks, blank_numbers};
ghost use Rattle.source_step.specs.Table.{table, Usables};
ghost use Rattle.source_walk.specs.Answers.{last_verdict, judgement_is, judgement_of, with_state};
ghost use Rattle.source_walk.specs.Opening.{PlanOf, OpenedTo, Started};
ghost use Rattle.source_walk.specs.Walk.{first_passing, walk_is, walk_from, judged_is, judge_by, stopped_at, TurnOf};
ghost use Rattle.source_step.specs.Sizes.{VARIABLES, MODES};
ghost use Rattle.plan_strokes.specs.Strokes.{STAGES};

use answers::{Reason, Refusal};
use plan_strokes::STAGES;
use source_state::State;
use source_step::{MARKS, MODES, NUMBERS, ROWS, SUMS_ROW, VARIABLES};

// The most steps that an expansion has.
pub const MOST_STEPS: u64 = 1_000_000;

// What is ready for a walk: how many actions, variables and modes the task has, and how many steps the plan.
#[derive(Clone, Copy)]
pub struct Task {
    pub actions: usize,
    pub variables: usize,
    pub modes: usize,
    pub steps: usize,
}

// What an accepted file with so many actions declares: its start, and its rows, into arrays and tables of zeros.
fn make_ready(
    file: &[u8],
    plan: &[u8],
    count: usize,
    steps: usize,
    marks: &mut [[u16; MARKS]],
    numbers: &mut [[i64; NUMBERS]],
    values: &mut [i64; VARIABLES],
    modes: &mut [u16; MODES],
) -> Task
    requires accepted_with { AcceptedWith (verdict_of source_limits file.now) count × PlanOf plan.now steps × (marks.old ≡ blank_marks)
        × (numbers.old ≡ blank_numbers) }
    requires values_value { (values.old ≡ replicate VARIABLES (pos 0)) × (modes.old ≡ replicate MODES 0) }
    ensures { Started file.now plan.now result marks.new numbers.new values.new modes.new }
{
    let mut lower = [0i64; VARIABLES];
    let mut upper = [0i64; VARIABLES];
    let mut sizes = [0u16; MODES];
    let declared = file_declarations::read_source(
        file, &mut lower, &mut upper, values, &mut sizes, modes,
    );
    let n = declared.variables;
    let m = declared.modes;
    source_ready::prepare(file, count, n, &lower, &upper, m, &sizes, marks, numbers);
    Task {
        actions: count,
        variables: n,
        modes: m,
        steps,
    }
}

// Reads a file, then the bytes of a plan, and makes the task ready: its rows and its start, in the place of zeros. The arrays are as they
// were where one of the two is refused, which is then the answer.
pub fn open(
    file: &[u8],
    plan: &[u8],
    marks: &mut [[u16; MARKS]],
    numbers: &mut [[i64; NUMBERS]],
    values: &mut [i64; VARIABLES],
    modes: &mut [u16; MODES],
) -> Result<Task, Refusal>
    requires { (marks.old ≡ blank_marks) × (numbers.old ≡ blank_numbers) × (values.old ≡ replicate VARIABLES (pos 0)) × (modes.old ≡ replicate MODES 0) }
    ensures { OpenedTo file.now plan.now marks.old numbers.old values.old modes.old
        result marks.new numbers.new values.new modes.new }
{
    let accepted = file_check::check_source(file)?;
    let steps = match plan_bytes::count_steps(plan) {
        Ok(steps) => steps,
        Err(refusal) => return Err(refusal),
    };
    Ok(make_ready(
        file,
        plan,
        accepted.actions as usize,
        steps,
        marks,
        numbers,
        values,
        modes,
    ))
}

// The first step with which a sum passes 1,000,000, once step i has brought it to `after`.
fn first_passing(passing: u64, sum: u64, after: u64, i: u64) -> u64
    ensures { result ≡ first_passing passing sum after i }
{
    if MOST_STEPS < sum {
        return passing;
    }
    if MOST_STEPS < after {
        return i;
    }
    passing
}

// Whether all steps of a plan apply, or which one is refused; the sum of their prices where they are priced, else 0, and the first step with
// which it passes 1,000,000.
#[derive(Clone, Copy)]
struct Walked {
    progress: Result<(), Refusal>,
    price: u64,
    passing: u64,
}

// A walk that stops at a step.
fn stopped(refusal: Refusal, price: u64, passing: u64) -> Walked
    ensures { stopped_at refusal price passing result }
{
    Walked {
        progress: Err(refusal),
        price,
        passing,
    }
}

// Takes a step in a lent state, priced or at no price: its price, if it applies.
fn take_turn(
    values: &mut [i64; VARIABLES],
    modes: &mut [u16; MODES],
    n: usize,
    m: usize,
    marks: &[u16; MARKS],
    numbers: &[i64; NUMBERS],
    sums: &[i64; NUMBERS],
    priced: bool,
    times: &mut [i64; STAGES],
) -> Option<u64>
    requires n_bound { (n ≤ VARIABLES) × (m ≤ MODES) × (length modes.old ≡ MODES) × (length times.old ≡ STAGES) }
    requires usable { Usable n marks.now numbers.now sums.now }
    ensures turn_of { TurnOf priced n m marks.now numbers.now sums.now values.old modes.old result
        values.new modes.new }
    ensures times_len { length times.new ≡ STAGES }
{
    if priced {
        return plan_strokes::take_priced(values, modes, n, m, marks, numbers, sums, times).ok();
    }
    source_step::take(values, modes, n, m, marks, numbers, sums).then_some(0)
}

// Takes the steps of a plan in a lent state, and sums their prices where they are asked for.
fn walk(
    plan: &[u8],
    steps: usize,
    count: usize,
    marks: &[[u16; MARKS]],
    numbers: &[[i64; NUMBERS]],
    n: usize,
    m: usize,
    priced: bool,
    values: &mut [i64; VARIABLES],
    modes: &mut [u16; MODES],
) -> Walked
    requires { Usables (table count marks.now numbers.now n m) × (steps ≡ length (plan_numbers plan.now)) × (steps ≤ 1000000)
        × (length modes.old ≡ MODES) }
    ensures { walk_is result (state values.new modes.new)
        ≡ walk_from (table count marks.now numbers.now n m) priced 0 0 0 (plan_numbers plan.now)
        (state values.old modes.old) }
{
    let mut times = [0i64; STAGES];
    let mut price: u64 = 0;
    let mut passing: u64 = 0;
    for i in 0..steps {
        let k = plan_bytes::action_of(plan, i) as usize;
        if count <= k {
            return stopped(Reason::NoAction.at(i as u64), price, passing);
        }
        let Some(cost) = take_turn(
            values,
            modes,
            n,
            m,
            &marks[k],
            &numbers[k],
            &numbers[SUMS_ROW],
            priced,
            &mut times,
        ) else {
            return stopped(Reason::DoesNotApply.at(i as u64), price, passing);
        };
        let sum = price;
        price = sum + cost;
        passing = first_passing(passing, sum, price, i as u64);
    }
    Walked {
        progress: Ok(()),
        price,
        passing,
    }
}

// What judging a plan answers, the count of its steps where it is valid; the sum of the prices of the steps that were taken, 0 where they are not
// priced, and the first step with which it passes 1,000,000.
#[derive(Clone, Copy)]
pub struct Judged {
    pub verdict: Result<u64, Refusal>,
    pub price: u64,
    pub passing: u64,
}

// The verdict on a plan of so many steps, from how far it goes and whether the goal is met then.
fn last_verdict(progress: Result<(), Refusal>, met: bool, steps: usize) -> Result<u64, Refusal>
    ensures { result ≡ last_verdict progress met steps }
{
    progress?;
    if met {
        return Ok(steps as u64);
    }
    Err(Reason::GoalNotMet.at(steps as u64))
}

// Judges a plan of so many steps from a lent state on, by the rows of a task's actions and of its goal: per step 11 and 12, then 13. The state
// is left where the plan ends or the refused step stood.
pub fn judge_steps(
    plan: &[u8],
    steps: usize,
    count: usize,
    marks: &[[u16; MARKS]],
    numbers: &[[i64; NUMBERS]],
    n: usize,
    m: usize,
    priced: bool,
    values: &mut [i64; VARIABLES],
    modes: &mut [u16; MODES],
) -> Judged
    requires { Usables (table count marks.now numbers.now n m) × (steps ≡ length (plan_numbers plan.now)) × (steps ≤ 1000000)
        × (length modes.old ≡ MODES) }
    ensures { judged_is result (state values.new modes.new)
        ≡ judge_by (table count marks.now numbers.now n m) priced (plan_numbers plan.now)
        (state values.old modes.old) }
{
    let walked = walk(
        plan, steps, count, marks, numbers, n, m, priced, values, modes,
    );
    let met = source_step::holds(
        values,
        modes,
        n,
        m,
        &marks[count],
        &numbers[count],
        &numbers[SUMS_ROW],
    );
    Judged {
        verdict: last_verdict(walked.progress, met, steps),
        price: walked.price,
        passing: walked.passing,
    }
}

// What judging a plan answers, the count of its steps where it is valid, and the end state in front of zeros; on a refusal, zeros.
#[derive(Clone, Copy)]
pub struct Judgement {
    pub verdict: Result<u64, Refusal>,
    pub state: State,
}

// The judgement of a plan that is refused.
fn refuse(refusal: Refusal) -> Judgement
    ensures { judgement_is result ≡ judgement_of (refusal_is refusal) }
{
    let values = [0i64; VARIABLES];
    let modes = [0u16; MODES];
    Judgement {
        verdict: Err(refusal),
        state: State { values, modes },
    }
}

// The judgement of a plan with a verdict, over the arrays at its end.
fn conclude(
    verdict: Result<u64, Refusal>,
    values: [i64; VARIABLES],
    modes: [u16; MODES],
) -> Judgement
    ensures { judgement_is result ≡ with_state verdict (state values modes) }
{
    match verdict {
        Err(refusal) => refuse(refusal),
        Ok(steps) => Judgement {
            verdict: Ok(steps),
            state: State { values, modes },
        },
    }
}

// Judges a plan against a file: the file's refusals first, 10, per step 11 and 12, then 13; else the count of steps and the end state.
pub fn judge(file: &[u8], plan: &[u8]) -> Judgement
    ensures { judgement_is result ≡ judgement_of (judge_source file.now plan.now) }
{
    let mut marks = [[0u16; MARKS]; ROWS];
    let mut numbers = [[0i64; NUMBERS]; ROWS];
    let mut values = [0i64; VARIABLES];
    let mut modes = [0u16; MODES];
    match open(
        file,
        plan,
        &mut marks,
        &mut numbers,
        &mut values,
        &mut modes,
    ) {
        Err(refusal) => refuse(refusal),
        Ok(t) => {
            let judged = judge_steps(
                plan,
                t.steps,
                t.actions,
                &marks,
                &numbers,
                t.variables,
                t.modes,
                false,
                &mut values,
                &mut modes,
            );
            conclude(judged.verdict, values, modes)
        }
    }
}

// The price of a plan, from the file's start on. It is refused as by judging it.
pub fn price_plan(file: &[u8], plan: &[u8]) -> Result<u64, Refusal>
    ensures { answer_of result ≡ price_plan file.now plan.now }
{
    let mut marks = [[0u16; MARKS]; ROWS];
    let mut numbers = [[0i64; NUMBERS]; ROWS];
    let mut values = [0i64; VARIABLES];
    let mut modes = [0u16; MODES];
    let t = open(
        file,
        plan,
        &mut marks,
        &mut numbers,
        &mut values,
        &mut modes,
    )?;
    let judged = judge_steps(
        plan,
        t.steps,
        t.actions,
        &marks,
        &numbers,
        t.variables,
        t.modes,
        true,
        &mut values,
        &mut modes,
    );
    judged.verdict?;
    Ok(judged.price)
}
