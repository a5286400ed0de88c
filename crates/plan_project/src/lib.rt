// Projecting: the source plan that a restricted plan of the lowering stands for.
//
// The plan is followed by source steps, by the rows of their actions: it is compared with the runs that each source step becomes, and refused
// at the first number that differs. The lowering is not made, and no step of it is taken. The file is read in crate source_walk.
#![tactic(auto)]

ghost use Rattle.std.specs.Prelude.{◌≡◌, true, false, ◌+◌, ◌*◌, ◌≤◌, ◌<◌, length, take, get_or, replicate};
ghost use Rattle.answers.specs.Refusals.{refusal_is};
ghost use Rattle.lists.specs.Writing.{Room, Wrote};
ghost use Rattle.answers.specs.Lent.{Lent};
ghost use Rattle.model.specs.Systems.{keep};
ghost use Rattle.model.specs.Plans.{plan_bytes_of, plan_numbers};
ghost use Rattle.model.specs.Judging.{project_bytes};
ghost use Rattle.source_step.specs.Step.{state};
ghost use Rattle.source_step.specs.Row.{Usable};
ghost use Rattle.source_step.specs.Table.{table, Usables};
ghost use Rattle.plan_project.specs.Sources.{OPENINGS, NONE, entry_at, source_in, Below, Openable, Sourced};
ghost use Rattle.plan_strokes.specs.Made.{MacroIs};
ghost use Rattle.plan_project.specs.Following.{Answers, Further, strayed_at, past_at, into_at, strokes_walked, Advanced};
ghost use Rattle.plan_project.specs.Following.{noted_at, Notes, PlanFollowed};
ghost use Rattle.plan_project.specs.Projecting.{Posed, Kept, Reached, Projected, TaskProjected};
ghost use Rattle.source_step.specs.Sizes.{VARIABLES, MODES, EFFECTS};
ghost use Rattle.plan_strokes.specs.Strokes.{STAGES};

use answers::{Reason, Refusal};
use file_actions::EFFECTS;
use plan_strokes::{ENTRIES, STAGES};
use source_step::{MARKS, MODES, NUMBERS, ROWS, SUMS_ROW, VARIABLES};

// The restricted numbers that a table of them has room for.
const OPENINGS: usize = 3200;

// How many of the source numbers that are found are noted.
const NOTED: usize = 512;

// What stands in the table for a number that opens no source action.
const NONE: u8 = 32;

// Which source action each restricted number opens, into a table of NONE, from the numbers of the openings of so many actions.
fn put_openers(sources: &mut [u8; OPENINGS], count: usize, openings: &[u16; ENTRIES])
    requires { (sources.old ≡ replicate OPENINGS NONE) × Openable openings.now count }
    ensures { Sourced openings.now count sources.new }
{
    for (k, opening) in openings[..count].iter().enumerate() {
        sources[*opening as usize] = k as u8;
    }
}

// What the table has at a number.
fn source_of(sources: &[u8; OPENINGS], number: u16) -> u8
    ensures { result ≡ entry_at sources.now number }
{
    let i = number as usize;
    if i < OPENINGS {
        return sources[i];
    }
    NONE
}

// The refusal of a plan that goes astray at a place: the goal is not met where it ends there, else by the number that stands there.
fn astray(plan: &[u8], steps: usize, total: usize, place: usize) -> Refusal
    requires { steps ≡ length (plan_numbers plan.now) }
    ensures { strayed_at total (plan_numbers plan.now) place ≡ refusal_is result }
{
    if steps <= place {
        return Reason::GoalNotMet.at(place as u64);
    }
    let k = plan_bytes::action_of(plan, place) as usize;
    if k < total {
        return Reason::DoesNotApply.at(place as u64);
    }
    Reason::NoAction.at(place as u64)
}

// What a source step comes to: the place where the plan goes on, or its refusal. Of a step that applies, where the plan has the first `matched`
// of its `size` numbers from a place on.
fn past_macro(
    plan: &[u8],
    steps: usize,
    total: usize,
    at: usize,
    matched: usize,
    size: usize,
) -> Result<usize, Refusal>
    requires { (steps ≡ length (plan_numbers plan.now)) × (at + matched ≤ steps) × (1 ≤ size) }
    ensures answers { Answers result (plan_numbers plan.now) (past_at total at matched size (plan_numbers plan.now)) }
    ensures further { Further true at (plan_numbers plan.now) result }
{
    let place = at + matched;
    if matched == size {
        return Ok(place);
    }
    Err(astray(plan, steps, total, place))
}

// Of a step that hangs at the last of those numbers, which doesn't apply.
fn into_macro(
    plan: &[u8],
    steps: usize,
    total: usize,
    at: usize,
    matched: usize,
    size: usize,
) -> Result<usize, Refusal>
    requires { (steps ≡ length (plan_numbers plan.now)) × (at + matched ≤ steps) × (1 ≤ size) }
    ensures answers { Answers result (plan_numbers plan.now) (λ onward. into_at total at matched size (plan_numbers plan.now)) }
    ensures further { Further false at (plan_numbers plan.now) result }
{
    let place = at + matched.min(size - 1);
    Err(astray(plan, steps, total, place))
}

// How many of so many strokes a walk goes through that hangs: those up to the Move to the first target whose result is out of bounds. Behind it
// each target has a Clear and a Move.
fn strokes_walked(count: usize, effects: usize, first: usize) -> usize
    requires { (first < effects) × (effects ≤ EFFECTS) × (2 * effects ≤ count) × (count ≤ STAGES) }
    ensures { result ≡ strokes_walked count effects first }
{
    count - 2 * (effects - 1 - first)
}

// Takes an action that becomes a macro, in a lent state, and compares the plan, from a place on, with what it becomes there. The times are
// lent for its strokes.
fn advance_macro(
    plan: &[u8],
    steps: usize,
    total: usize,
    at: usize,
    opening: u16,
    n: usize,
    m: usize,
    marks: &[u16; MARKS],
    numbers: &[i64; NUMBERS],
    sums: &[i64; NUMBERS],
    values: &mut [i64; VARIABLES],
    modes: &mut [u16; MODES],
    times: &mut [i64; STAGES],
) -> Result<usize, Refusal>
    requires n_bound { (n ≤ VARIABLES) × (m ≤ MODES) × (length modes.old ≡ MODES) × (length times.old ≡ STAGES) }
    requires usable { Usable n marks.now numbers.now sums.now }
    requires macro_is { MacroIs marks.now true × (steps ≡ length (plan_numbers plan.now)) × (at < steps) × (opening ≤ 65000) }
    ensures advanced { Advanced n m marks.now numbers.now sums.now values.old modes.old
        total at (plan_numbers plan.now) opening result values.new modes.new }
    ensures times_len { length times.new ≡ STAGES }
{
    if !source_step::holds(values, modes, n, m, marks, numbers, sums) {
        return Err(Reason::DoesNotApply.at(at as u64));
    }
    let mut results = [0i64; EFFECTS];
    let count = plan_strokes::put_strokes(times, &mut results, values, n, marks, numbers);
    let matched = plan_strokes::matches_step(plan, at, opening, times, count);
    if source_step::finish(values, modes, n, m, marks, numbers, &results) {
        let size = plan_strokes::price_of(times, count) as usize;
        return past_macro(plan, steps, total, at, matched, size);
    }
    let first = source_step::first_outside(marks, numbers, &results);
    let walked = strokes_walked(count, source_step::effect_count(marks), first);
    let size = plan_strokes::price_of(times, walked) as usize;
    into_macro(plan, steps, total, at, matched, size)
}

// Takes the action whose opening stands at a place of the plan, and compares the plan with what it becomes. An action that stays one is its
// opening.
fn advance(
    plan: &[u8],
    steps: usize,
    total: usize,
    at: usize,
    opening: u16,
    n: usize,
    m: usize,
    marks: &[u16; MARKS],
    numbers: &[i64; NUMBERS],
    sums: &[i64; NUMBERS],
    values: &mut [i64; VARIABLES],
    modes: &mut [u16; MODES],
    times: &mut [i64; STAGES],
) -> Result<usize, Refusal>
    requires n_bound { (n ≤ VARIABLES) × (m ≤ MODES) × (length modes.old ≡ MODES) × (length times.old ≡ STAGES) }
    requires usable { Usable n marks.now numbers.now sums.now }
    requires steps_value { (steps ≡ length (plan_numbers plan.now)) × (at < steps) × (opening ≤ 65000) × (opening ≡ get_or (plan_numbers plan.now) at 0) }
    ensures advanced { Advanced n m marks.now numbers.now sums.now values.old modes.old
        total at (plan_numbers plan.now) opening result values.new modes.new }
    ensures times_len { length times.new ≡ STAGES }
{
    if !plan_strokes::makes_macro(marks) {
        if source_step::take_single(values, modes, n, m, marks, numbers, sums) {
            return Ok(at + 1);
        }
        return Err(Reason::DoesNotApply.at(at as u64));
    }
    advance_macro(
        plan, steps, total, at, opening, n, m, marks, numbers, sums, values, modes, times,
    )
}

// Notes a source number, where there is room for it.
fn note(noted: &mut [u8; NOTED], found: usize, source: u8)
    ensures { noted.new ≡ noted_at noted.old found source }
{
    if found < NOTED {
        noted[found] = source;
    }
}

// Takes the source steps that a plan stands for in a lent state, and notes the first of them: how many they are where it goes to its end.
fn follow(
    plan: &[u8],
    steps: usize,
    total: usize,
    sources: &[u8; OPENINGS],
    count: usize,
    marks: &[[u16; MARKS]],
    numbers: &[[i64; NUMBERS]],
    n: usize,
    m: usize,
    values: &mut [i64; VARIABLES],
    modes: &mut [u16; MODES],
    noted: &mut [u8; NOTED],
) -> Result<usize, Refusal>
    requires usables { Usables (table count marks.now numbers.now n m) × Below count sources.now × (steps ≡ length (plan_numbers plan.now)) }
    requires modes_len { (length modes.old ≡ MODES) × (length noted.old ≡ 512) }
    ensures { PlanFollowed (table count marks.now numbers.now n m) total sources.now
        (plan_numbers plan.now) (state values.old modes.old)
        result (state values.new modes.new) noted.new }
{
    let mut times = [0i64; STAGES];
    let mut found: usize = 0;
    let mut at: usize = 0;
    while at < steps {
        let opening = plan_bytes::action_of(plan, at);
        let source = source_of(sources, opening);
        let k = source as usize;
        if count <= k {
            return Err(astray(plan, steps, total, at));
        }
        at = advance(
            plan,
            steps,
            total,
            at,
            opening,
            n,
            m,
            &marks[k],
            &numbers[k],
            &numbers[SUMS_ROW],
            values,
            modes,
            &mut times,
        )?;
        note(noted, found, source);
        found += 1;
    }
    Ok(found)
}

// The same where the goal is to be met at the end.
fn follow_to_goal(
    plan: &[u8],
    steps: usize,
    total: usize,
    sources: &[u8; OPENINGS],
    count: usize,
    marks: &[[u16; MARKS]],
    numbers: &[[i64; NUMBERS]],
    n: usize,
    m: usize,
    values: &mut [i64; VARIABLES],
    modes: &mut [u16; MODES],
    noted: &mut [u8; NOTED],
) -> Result<usize, Refusal>
    requires usables { Usables (table count marks.now numbers.now n m) × Below count sources.now × (steps ≡ length (plan_numbers plan.now)) }
    requires modes_len { (length modes.old ≡ MODES) × (length noted.old ≡ 512) }
    ensures { Reached (table count marks.now numbers.now n m) total sources.now (plan_numbers plan.now)
        (state values.old modes.old) result noted.new }
{
    let found = follow(
        plan, steps, total, sources, count, marks, numbers, n, m, values, modes, noted,
    )?;
    if source_step::holds(
        values,
        modes,
        n,
        m,
        &marks[count],
        &numbers[count],
        &numbers[SUMS_ROW],
    ) {
        return Ok(found);
    }
    Err(Reason::GoalNotMet.at(steps as u64))
}

// Writes the source numbers of a plan's openings, in their order. A number that opens nothing is passed over, and a run of it at once.
fn put_sources(plan: &[u8], steps: usize, sources: &[u8; OPENINGS], out: &mut [u8]) -> usize
    requires { Room out.old 0 (plan_bytes_of (keep (source_in sources.now) (plan_numbers plan.now))) × (steps ≡ length (plan_numbers plan.now)) }
    ensures { Wrote out.old 0 (plan_bytes_of (keep (source_in sources.now) (plan_numbers plan.now)))
        out.new result }
{
    let mut place: usize = 0;
    let mut at: usize = 0;
    let mut last: u16 = 0;
    while at < steps {
        let number = plan_bytes::action_of(plan, at);
        let source = source_of(sources, number);
        if source < NONE {
            place = lists::put_number(out, place, source as u32, 2);
            at += 1;
        } else if number == last {
            at += plan_bytes::matches_run(plan, at, number, steps);
        } else {
            last = number;
            at += 1;
        }
    }
    place
}

// Writes the first source numbers that are noted.
fn put_noted(noted: &[u8; NOTED], found: usize, out: &mut [u8]) -> usize
    requires { Room out.old 0 (plan_bytes_of (take found noted.now)) × (found ≤ 512) × (length noted.now ≡ 512) }
    ensures { Wrote out.old 0 (plan_bytes_of (take found noted.now)) out.new result }
{
    let mut place: usize = 0;
    for source in &noted[..found] {
        place = lists::put_number(out, place, *source as u32, 2);
    }
    place
}

// Writes the source numbers of a plan that has so many: those noted, or those of a scan where there are more.
fn put_found(
    plan: &[u8],
    steps: usize,
    sources: &[u8; OPENINGS],
    noted: &[u8; NOTED],
    found: usize,
    out: &mut [u8],
) -> usize
    requires room { Room out.old 0 (plan_bytes_of (keep (source_in sources.now) (plan_numbers plan.now))) × (steps ≡ length (plan_numbers plan.now)) }
    requires notes { Notes noted.now (keep (source_in sources.now) (plan_numbers plan.now))
        × (found ≡ length (keep (source_in sources.now) (plan_numbers plan.now))) }
    ensures { Wrote out.old 0 (plan_bytes_of (keep (source_in sources.now) (plan_numbers plan.now)))
        out.new result }
{
    if found <= NOTED {
        return put_noted(noted, found, out);
    }
    put_sources(plan, steps, sources, out)
}

// Projects a plan from a lent start into lent output, by the rows of a task's actions and a table of what opens them.
fn project_rows(
    plan: &[u8],
    steps: usize,
    total: usize,
    sources: &[u8; OPENINGS],
    count: usize,
    marks: &[[u16; MARKS]],
    numbers: &[[i64; NUMBERS]],
    n: usize,
    m: usize,
    values: &mut [i64; VARIABLES],
    modes: &mut [u16; MODES],
    out: &mut [u8],
) -> Result<usize, Refusal>
    requires usables { Usables (table count marks.now numbers.now n m) × Below count sources.now
        × (steps ≡ length (plan_numbers plan.now)) × (length modes.old ≡ MODES) }
    requires kept { Kept (table count marks.now numbers.now n m) total sources.now (plan_numbers plan.now) (state values.old modes.old) }
    ensures { Projected (table count marks.now numbers.now n m) total sources.now (plan_numbers plan.now)
        (state values.old modes.old) out.old out.new result }
{
    let mut noted = [0u8; NOTED];
    let found = follow_to_goal(
        plan, steps, total, sources, count, marks, numbers, n, m, values, modes, &mut noted,
    )?;
    let needed = 2 * found;
    if out.len() < needed {
        return Err(Reason::OutputShort.at(needed as u64));
    }
    put_found(plan, steps, sources, &noted, found, out);
    Ok(needed)
}

// Projects a plan of so many steps from the start of a task that is made ready.
fn project_ready(
    plan: &[u8],
    steps: usize,
    count: usize,
    marks: &[[u16; MARKS]],
    numbers: &[[i64; NUMBERS]],
    n: usize,
    m: usize,
    values: &mut [i64; VARIABLES],
    modes: &mut [u16; MODES],
    out: &mut [u8],
) -> Result<usize, Refusal>
    requires posed { Posed (table count marks.now numbers.now n m) (state values.old modes.old) }
    requires steps_value { (steps ≡ length (plan_numbers plan.now)) × (steps ≤ 1000000) }
    ensures { TaskProjected (table count marks.now numbers.now n m) (state values.old modes.old)
        (plan_numbers plan.now) out.old out.new result }
{
    let openings = plan_strokes::openings_of(count, marks);
    let total = openings.numbers[count] as usize;
    let numbers_of = openings.numbers;
    let mut sources = [NONE; OPENINGS];
    put_openers(&mut sources, count, &numbers_of);
    project_rows(
        plan, steps, total, &sources, count, marks, numbers, n, m, values, modes, out,
    )
}

// The source plan that a restricted plan projects to, written into lent output.
pub fn project(file: &[u8], plan: &[u8], out: &mut [u8]) -> Result<usize, Refusal>
    ensures { Lent out.old (project_bytes file.now plan.now) out.new result }
{
    let mut marks = [[0u16; MARKS]; ROWS];
    let mut numbers = [[0i64; NUMBERS]; ROWS];
    let mut values = [0i64; VARIABLES];
    let mut modes = [0u16; MODES];
    let t = source_walk::open(
        file,
        plan,
        &mut marks,
        &mut numbers,
        &mut values,
        &mut modes,
    )?;
    project_ready(
        plan,
        t.steps,
        t.actions,
        &marks,
        &numbers,
        t.variables,
        t.modes,
        &mut values,
        &mut modes,
        out,
    )
}
