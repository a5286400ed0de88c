// Expanding: a source plan as a plan of the lowering.
//
// A plan is judged and priced first, then written, step by step, into output that the caller lends. It never writes what it refuses.
#![tactic(auto)]

ghost use Rattle.std.specs.Prelude.{◌≡◌, true, map, ◌*◌, ◌≤◌, length, take};
ghost use Rattle.lists.specs.Writing.{Room, Wrote};
ghost use Rattle.answers.specs.Lent.{Lent};
ghost use Rattle.model.specs.Judging.{expand_bytes};
ghost use Rattle.model.specs.Plans.{plan_bytes_of, plan_numbers};
ghost use Rattle.model.specs.Steps.{integer_at};
ghost use Rattle.source_step.specs.Step.{state};
ghost use Rattle.source_step.specs.Row.{effects_at, KeepOrSet, Reads};
ghost use Rattle.source_step.specs.Table.{table, Usables};
ghost use Rattle.plan_strokes.specs.Strokes.{strokes_of, step_numbers};
ghost use Rattle.plan_expand.specs.Expanding.{length_of, opening_in, OpeningsFew, Named, TurnTaken, goes_by, expansion_by, Expandable, ExpandedTo};
ghost use Rattle.source_step.specs.Sizes.{VARIABLES, MODES};
ghost use Rattle.plan_strokes.specs.Strokes.{STAGES};

use answers::{Reason, Refusal};
use file_actions::EFFECTS;
use plan_strokes::{ENTRIES, STAGES};
use source_step::{MARKS, MODES, NUMBERS, ROWS, VARIABLES};
use source_walk::MOST_STEPS;

// How many bytes the expansion of a judged plan has that has such a price, or why there is none.
fn length_of(verdict: Result<u64, Refusal>, price: u64, passing: u64) -> Result<usize, Refusal>
    ensures { result ≡ length_of verdict price passing }
{
    verdict?;
    if MOST_STEPS < price {
        return Err(Reason::OverMillion.at(passing));
    }
    Ok(2 * (price as usize))
}

// Writes what a step becomes whose row's test holds, and takes the rest of the step in the lent state.
fn put_turn(
    out: &mut [u8],
    at: usize,
    opening: u16,
    n: usize,
    m: usize,
    marks: &[u16; MARKS],
    numbers: &[i64; NUMBERS],
    times: &mut [i64; STAGES],
    values: &mut [i64; VARIABLES],
    modes: &mut [u16; MODES],
) -> usize
    requires opening_bound { (opening ≤ 65000) × (n ≤ VARIABLES) × (m ≤ MODES) × (length modes.old ≡ MODES) × (length times.old ≡ STAGES) }
    requires keep_or_set { KeepOrSet marks.now × Reads n values.old marks.now numbers.now }
    requires room { Room out.old at (plan_bytes_of (step_numbers opening (strokes_of (effects_at marks.now numbers.now) (integer_at (take n values.old))))) }
    ensures wrote { Wrote out.old at (plan_bytes_of (step_numbers opening
        (strokes_of (effects_at marks.now numbers.now) (integer_at (take n values.old)))))
        out.new result }
    ensures turn_taken { TurnTaken n m marks.now numbers.now values.old modes.old
        values.new modes.new }
    ensures times_len { length times.new ≡ STAGES }
{
    let mut results = [0i64; EFFECTS];
    let count = plan_strokes::put_strokes(times, &mut results, values, n, marks, numbers);
    let place = plan_strokes::put_step(out, at, opening, times, count);
    source_step::finish(values, modes, n, m, marks, numbers, &results);
    place
}

// Writes the expansion of a plan whose steps apply, into output that has room, and takes its steps in the lent state.
fn put_plan(
    out: &mut [u8],
    plan: &[u8],
    steps: usize,
    openings: &[u16; ENTRIES],
    count: usize,
    marks: &[[u16; MARKS]],
    numbers: &[[i64; NUMBERS]],
    n: usize,
    m: usize,
    values: &mut [i64; VARIABLES],
    modes: &mut [u16; MODES],
) -> usize
    requires usables { Usables (table count marks.now numbers.now n m) × OpeningsFew count openings.now × (steps ≡ length (plan_numbers plan.now))
        × (length modes.old ≡ MODES) }
    requires modes_value { goes_by (table count marks.now numbers.now n m) (plan_numbers plan.now) (state values.old modes.old) ≡ true }
    requires room { Room out.old 0 (plan_bytes_of (expansion_by (table count marks.now numbers.now n m) openings.now (plan_numbers plan.now)
        (state values.old modes.old))) }
    ensures { Wrote out.old 0 (plan_bytes_of (expansion_by (table count marks.now numbers.now n m) openings.now
        (plan_numbers plan.now)
        (state values.old modes.old))) out.new result }
{
    let mut times = [0i64; STAGES];
    let mut place: usize = 0;
    for i in 0..steps {
        let k = plan_bytes::action_of(plan, i) as usize;
        place = put_turn(
            out,
            place,
            openings[k],
            n,
            m,
            &marks[k],
            &numbers[k],
            &mut times,
            values,
            modes,
        );
    }
    place
}

// Writes the openings of a plan's steps: its expansion, where each step becomes one number.
fn put_openings(out: &mut [u8], plan: &[u8], steps: usize, openings: &[u16; ENTRIES]) -> usize
    requires { (steps ≡ length (plan_numbers plan.now)) × Named (plan_numbers plan.now) 33 × (2 * steps ≤ length out.old) }
    ensures { Wrote out.old 0 (plan_bytes_of (map (opening_in openings.now) (plan_numbers plan.now))) out.new result }
{
    let mut place: usize = 0;
    for i in 0..steps {
        let k = plan_bytes::action_of(plan, i) as usize;
        place = lists::put_number(out, place, openings[k] as u32, 2);
    }
    place
}

// Writes the expansion of a plan that has so many bytes, from a lent state on, where the output lent is not too short for them.
fn write_expansion(
    needed: Result<usize, Refusal>,
    plan: &[u8],
    steps: usize,
    count: usize,
    marks: &[[u16; MARKS]],
    numbers: &[[i64; NUMBERS]],
    n: usize,
    m: usize,
    values: &mut [i64; VARIABLES],
    modes: &mut [u16; MODES],
    out: &mut [u8],
) -> Result<usize, Refusal>
    requires usables { Usables (table count marks.now numbers.now n m) × (steps ≡ length (plan_numbers plan.now)) × (steps ≤ 1000000)
        × (length modes.old ≡ MODES) }
    requires expandable { Expandable (table count marks.now numbers.now n m) (plan_numbers plan.now) (state values.old modes.old) needed }
    ensures { ExpandedTo (table count marks.now numbers.now n m) (plan_numbers plan.now)
        (state values.old modes.old)
        needed out.old out.new result }
{
    let bytes = needed?;
    let openings = plan_strokes::openings_of(count, marks);
    let numbers_of = openings.numbers;
    if out.len() < bytes {
        return Err(Reason::OutputShort.at(bytes as u64));
    }
    if bytes == 2 * steps {
        put_openings(out, plan, steps, &numbers_of);
        return Ok(bytes);
    }
    put_plan(
        out,
        plan,
        steps,
        &numbers_of,
        count,
        marks,
        numbers,
        n,
        m,
        values,
        modes,
    );
    Ok(bytes)
}

// Writes the expansion of a plan of a file's task into lent output. It refuses a plan that isn't valid for the task, an expansion of over
// 1,000,000 steps, and output that is shorter than the result.
pub fn expand(file: &[u8], plan: &[u8], out: &mut [u8]) -> Result<usize, Refusal>
    ensures { Lent out.old (expand_bytes file.now plan.now) out.new result }
{
    let mut marks = [[0u16; MARKS]; ROWS];
    let mut numbers = [[0i64; NUMBERS]; ROWS];
    let mut values = [0i64; VARIABLES];
    let mut modes = [0u16; MODES];
    let t = source_walk::open(
        file,
        plan,
        &mut marks,
        &mut numbers,
        &mut values,
        &mut modes,
    )?;
    let mut last_values = values;
    let mut last_modes = modes;
    let judged = source_walk::judge_steps(
        plan,
        t.steps,
        t.actions,
        &marks,
        &numbers,
        t.variables,
        t.modes,
        true,
        &mut last_values,
        &mut last_modes,
    );
    write_expansion(
        length_of(judged.verdict, judged.price, judged.passing),
        plan,
        t.steps,
        t.actions,
        &marks,
        &numbers,
        t.variables,
        t.modes,
        &mut values,
        &mut modes,
        out,
    )
}
