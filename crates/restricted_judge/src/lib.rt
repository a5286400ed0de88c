// The judge of restricted plans. It reads the file and the plan, keeps the actions of the plan as rows and takes its runs of equal numbers at
// once (`restricted_runs`), and answers for every input. The goal is tested as the conditions of an action are.
#![tactic(auto)]

ghost use Rattle.std.specs.Prelude.{◌≡◌, ◌<◌, ◌≤◌, length};
ghost use Rattle.model.specs.Plans.{plan_numbers};
ghost use Rattle.model.specs.Judging.{judge_restricted_task, judge_restricted};
ghost use Rattle.restricted_step.specs.Steps.{state_of};
ghost use Rattle.restricted_step.specs.Whole.{task_in, StandingIn};
ghost use Rattle.restricted_runs.specs.Slots.{PlacesKept, Held};
ghost use Rattle.restricted_judge.specs.Judging.{judgement_is, judgement_of, judged_is, AcceptedPlan, Walked};

use answers::{Reason, Refusal};
use file_parts::{MARKS, NUMBERS};
use restricted_runs::PLACES;
use restricted_state::State;
use restricted_step::{MODES, VARIABLES};

// A plan of so many steps is given all slots.
const MANY_STEPS: usize = 4_096;

// How many actions are kept of such a plan, and of another.
const SLOTS: usize = 512;

const FEW_SLOTS: usize = 8;

// Room for the places of fewer actions than these: those of every lowered task.
const FEW_PLACES: usize = 1_024;

// The tag of a slot that holds no action: it is no action's number.
const NO_ACTION: u16 = 65_535;

// What comes of a plan: the count of its steps where it is valid, and the end state. What stands beyond the task's variables and modes is 0; on
// a refusal all is.
#[derive(Clone, Copy)]
pub struct Judgement {
    pub verdict: Result<u64, Refusal>,
    pub state: State,
}

// The slot of an action.
fn slot_of(number: usize, slots: usize) -> usize
    requires { 8 ≤ slots }
    ensures { result < slots }
{
    if slots < SLOTS {
        number % FEW_SLOTS
    } else {
        number % SLOTS
    }
}

// All steps of a plan, run by run: the rows of an action are filled where its slot holds another.
fn judge_runs(
    file: &[u8],
    places: &[usize],
    count: usize,
    plan: &[u8],
    steps: usize,
    values: &mut [i64; VARIABLES],
    modes: &mut [u16; MODES],
    tags: &mut [u16],
    marks: &mut [[u16; MARKS]],
    numbers: &mut [[i64; NUMBERS]],
) -> Result<(), Refusal>
    requires accepted_plan { AcceptedPlan file.now plan.now count steps × PlacesKept file.now places.now count
        × StandingIn (task_in file.now) (state_of values.old modes.old) }
    requires in_bounds { (8 ≤ length tags.old) × Held file.now count tags.old marks.old numbers.old }
    ensures { Walked file.now plan.now steps (state_of values.old modes.old)
        result (state_of values.new modes.new) }
{
    let mut i: usize = 0;
    while i < steps {
        let k = plan_bytes::action_of(plan, i);
        let number = k as usize;
        if count <= number {
            return Err(Reason::NoAction.at(i as u64));
        }
        let slot = slot_of(number, tags.len());
        restricted_runs::keep_action(file, places, count, tags, marks, numbers, slot, k);
        let run = restricted_runs::take_run(
            values,
            modes,
            &marks[slot],
            &numbers[slot],
            k,
            plan,
            i,
            steps,
        );
        i = run.map_err(|step| Reason::DoesNotApply.at(step as u64))?;
    }
    Ok(())
}

// The steps of a plan, with tables for few actions and few steps.
fn walk_few(
    file: &[u8],
    count: usize,
    plan: &[u8],
    steps: usize,
    values: &mut [i64; VARIABLES],
    modes: &mut [u16; MODES],
) -> Result<(), Refusal>
    requires { AcceptedPlan file.now plan.now count steps × (count < 1024) × StandingIn (task_in file.now) (state_of values.old modes.old) }
    ensures { Walked file.now plan.now steps (state_of values.old modes.old)
        result (state_of values.new modes.new) }
{
    let row = [0u16; MARKS];
    let line = [0i64; NUMBERS];
    let mut places = [0usize; FEW_PLACES];
    let mut tags = [NO_ACTION; FEW_SLOTS];
    let mut marks = [row; FEW_SLOTS];
    let mut numbers = [line; FEW_SLOTS];
    file_actions::action_places(file, &mut places);
    judge_runs(
        file,
        &places,
        count,
        plan,
        steps,
        values,
        modes,
        &mut tags,
        &mut marks,
        &mut numbers,
    )
}

// With tables for the actions of every file, and for many steps.
fn walk_many(
    file: &[u8],
    count: usize,
    plan: &[u8],
    steps: usize,
    values: &mut [i64; VARIABLES],
    modes: &mut [u16; MODES],
) -> Result<(), Refusal>
    requires { AcceptedPlan file.now plan.now count steps × StandingIn (task_in file.now) (state_of values.old modes.old) }
    ensures { Walked file.now plan.now steps (state_of values.old modes.old)
        result (state_of values.new modes.new) }
{
    let row = [0u16; MARKS];
    let line = [0i64; NUMBERS];
    let mut places = [0usize; PLACES];
    let mut tags = [NO_ACTION; SLOTS];
    let mut marks = [row; SLOTS];
    let mut numbers = [line; SLOTS];
    file_actions::action_places(file, &mut places);
    judge_runs(
        file,
        &places,
        count,
        plan,
        steps,
        values,
        modes,
        &mut tags,
        &mut marks,
        &mut numbers,
    )
}

// With the tables that the file and the plan need.
fn walk_plan(
    file: &[u8],
    count: usize,
    plan: &[u8],
    steps: usize,
    values: &mut [i64; VARIABLES],
    modes: &mut [u16; MODES],
) -> Result<(), Refusal>
    requires { AcceptedPlan file.now plan.now count steps × StandingIn (task_in file.now) (state_of values.old modes.old) }
    ensures { Walked file.now plan.now steps (state_of values.old modes.old)
        result (state_of values.new modes.new) }
{
    if MANY_STEPS <= steps || FEW_PLACES <= count {
        return walk_many(file, count, plan, steps, values, modes);
    }
    walk_few(file, count, plan, steps, values, modes)
}

// The judgement of a plan of so many steps, over an accepted file with `count` actions.
fn judge_accepted(
    file: &[u8],
    count: usize,
    plan: &[u8],
    steps: usize,
) -> Result<Judgement, Refusal>
    requires { AcceptedPlan file.now plan.now count steps }
    ensures { judged_is result ≡ judgement_of (judge_restricted_task (task_in file.now) (plan_numbers plan.now)) }
{
    let mut values = [0i64; VARIABLES];
    let mut sizes = [0u16; MODES];
    let mut modes = [0u16; MODES];
    let mut marks = [0u16; MARKS];
    let mut numbers = [0i64; NUMBERS];
    let _declared = file_declarations::read_restricted(file, &mut values, &mut sizes, &mut modes);
    walk_plan(file, count, plan, steps, &mut values, &mut modes)?;
    file_actions::decode_restricted(
        file_actions::goal_bytes(file, count),
        &mut marks,
        &mut numbers,
    );
    if !restricted_step::holds(&values, &modes, &marks, &numbers) {
        return Err(Reason::GoalNotMet.at(steps as u64));
    }
    Ok(Judgement {
        verdict: Ok(steps as u64),
        state: State { values, modes },
    })
}

// The judgement of a plan against a restricted file, or the first refusal: the file's, 10, per step 11 and 12, then 13.
fn judge_plan(file: &[u8], plan: &[u8]) -> Result<Judgement, Refusal>
    ensures { judged_is result ≡ judgement_of (judge_restricted file.now plan.now) }
{
    let accepted = file_check::check_restricted(file)?;
    let steps = plan_bytes::count_steps(plan)?;
    judge_accepted(file, accepted.actions as usize, plan, steps)
}

// What judging a plan against a restricted file answers: the file's refusals first, 10, per step 11 and 12, then 13; else the count of steps
// and the end state.
pub fn judge(file: &[u8], plan: &[u8]) -> Judgement
    ensures { judgement_is result ≡ judgement_of (judge_restricted file.now plan.now) }
{
    match judge_plan(file, plan) {
        Ok(judgement) => judgement,
        Err(refusal) => Judgement {
            verdict: Err(refusal),
            state: State {
                values: [0; VARIABLES],
                modes: [0; MODES],
            },
        },
    }
}
