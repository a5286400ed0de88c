// The library for C: every entry point as a function of numbers and slices, as ruphenqo_c exports it. include/ruphenqo.h is its manual.
//
// A function returns 0 or the refusal's number. It never asks anything of its input, and on a refusal it leaves what it was lent, but for the place, as it was.
#![tactic(auto)]

ghost use Rattle.std.specs.Prelude.{◌≡◌};
ghost use Rattle.answers.specs.Answer.{given, lent};
ghost use Rattle.answers.specs.Refusals.{answer_of};
ghost use Rattle.model.specs.Limits.{source_limits, restricted_limits};
ghost use Rattle.model.specs.Reading.{verdict_of};
ghost use Rattle.model.specs.ActionBytes.{action_place};
ghost use Rattle.model.specs.Judging.{judge_source, judge_restricted, step_restricted_alone, step_source_alone, price_step, price_plan};
ghost use Rattle.model.specs.Judging.{lower_bytes, expand_bytes, project_bytes};
ghost use Rattle.model.specs.Listing.{listing};
ghost use Rattle.file_check.specs.Views.{verdict_is};
ghost use Rattle.file_actions.specs.Places.{placed_is};
ghost use Rattle.restricted_judge.specs.Judging.{zeros};
ghost use Rattle.source_walk.specs.Answers.{zeros as source_zeros};
ghost use Rattle.refusals.specs.Texts.{refusal_text};
ghost use Rattle.ruphenqo.specs.Told.{Told, code_of, place_of, counts_of, itself, state_of, state_over, end_over};
ghost use Rattle.ruphenqo.specs.Start.{declares_of, declares_over, start_source, start_restricted};
ghost use Rattle.ruphenqo.specs.Version.{VERSION};

use answers::Refusal;
use file_check::Accepted;
use std::ops::Range;

// major * 10000 + minor * 100 + patch
const VERSION: u32 = 10_300;

// The version of the library.
pub fn ruphenqo_version() -> u32
    ensures { result ≡ VERSION }
{
    VERSION
}

// What a caller in C is told of every answer: 0, and the place 0; or the refusal's number, and its place.
fn tell<T>(answer: &Result<T, Refusal>, place: &mut u64) -> u32
    ensures code { result ≡ code_of (answer_of answer.now) }
    ensures place { place.new ≡ place_of (answer_of answer.now) }
{
    match answer {
        Ok(_) => {
            *place = 0;
            0
        }
        Err(refusal) => {
            *place = refusal.place;
            refusal.reason.number() as u32
        }
    }
}

fn tell_counts(checked: Result<Accepted, Refusal>, counts: &mut [u64; 3], place: &mut u64) -> u32
    ensures { Told (counts_of (verdict_is checked)) itself counts.old result place.new counts.new }
{
    if let Ok(accepted) = checked {
        *counts = [
            accepted.variables as u64,
            accepted.modes as u64,
            accepted.actions as u64,
        ];
    }
    tell(&checked, place)
}

// Reads a source file: the counts of its variables, modes and actions.
pub fn ruphenqo_read_source(task: &[u8], counts: &mut [u64; 3], place: &mut u64) -> u32
    ensures { Told (counts_of (verdict_of source_limits task.now)) itself counts.old result place.new counts.new }
{
    tell_counts(file_check::check_source(task), counts, place)
}

// Reads a restricted file.
pub fn ruphenqo_read_restricted(task: &[u8], counts: &mut [u64; 3], place: &mut u64) -> u32
    ensures { Told (counts_of (verdict_of restricted_limits task.now)) itself counts.old
        result place.new counts.new }
{
    tell_counts(file_check::check_restricted(task), counts, place)
}

// The state before any step of a source task, the bounds of its variables and the sizes of its modes, each in front of zeros.
pub fn ruphenqo_source_start(
    task: &[u8],
    values: &mut [i64; 8],
    modes: &mut [u16; 4],
    lower: &mut [i64; 8],
    upper: &mut [i64; 8],
    sizes: &mut [u16; 4],
    place: &mut u64,
) -> u32
    ensures { Told (start_source task.now) (declares_over source_zeros)
        (declares_of (state_of values.old modes.old) lower.old upper.old sizes.old) result place.new
        (declares_of (state_of values.new modes.new) lower.new upper.new sizes.new) }
{
    let checked = file_check::check_source(task);
    match checked {
        Err(_) => tell(&checked, place),
        Ok(_) => {
            *values = [0; 8];
            *modes = [0; 4];
            *lower = [0; 8];
            *upper = [0; 8];
            *sizes = [0; 4];
            file_declarations::read_source(task, lower, upper, values, sizes, modes);
            tell(&checked, place)
        }
    }
}

// The state before any step of a restricted task, in front of zeros.
pub fn ruphenqo_restricted_start(
    task: &[u8],
    values: &mut [i64; 64],
    modes: &mut [u16; 8],
    place: &mut u64,
) -> u32
    ensures { Told (start_restricted task.now) (state_over zeros) (state_of values.old modes.old)
        result place.new (state_of values.new modes.new) }
{
    let checked = file_check::check_restricted(task);
    match checked {
        Err(_) => tell(&checked, place),
        Ok(_) => {
            *values = [0; 64];
            *modes = [0; 8];
            let mut sizes = [0u16; 8];
            file_declarations::read_restricted(task, values, &mut sizes, modes);
            tell(&checked, place)
        }
    }
}

fn tell_place(
    placed: Result<Range<usize>, Refusal>,
    start: &mut u64,
    end: &mut u64,
    place: &mut u64,
) -> u32
    ensures { Told (placed_is placed) itself (start.old, end.old) result place.new (start.new, end.new) }
{
    if let Ok(range) = &placed {
        *start = range.start as u64;
        *end = range.end as u64;
    }
    tell(&placed, place)
}

// Where the bytes of action k of a source file start and end.
pub fn ruphenqo_source_action(
    task: &[u8],
    k: u64,
    start: &mut u64,
    end: &mut u64,
    place: &mut u64,
) -> u32
    ensures { Told (action_place source_limits task.now k) itself (start.old, end.old)
        result place.new (start.new, end.new) }
{
    tell_place(
        file_actions::place_source_action(task, k as usize),
        start,
        end,
        place,
    )
}

// Likewise of a restricted file.
pub fn ruphenqo_restricted_action(
    task: &[u8],
    k: u64,
    start: &mut u64,
    end: &mut u64,
    place: &mut u64,
) -> u32
    ensures { Told (action_place restricted_limits task.now k) itself (start.old, end.old)
        result place.new (start.new, end.new) }
{
    tell_place(
        file_actions::place_restricted_action(task, k as usize),
        start,
        end,
        place,
    )
}

// Judges a source plan: the count of its steps and the end state.
pub fn ruphenqo_judge_source(
    task: &[u8],
    plan: &[u8],
    steps: &mut u64,
    values: &mut [i64; 8],
    modes: &mut [u16; 4],
    place: &mut u64,
) -> u32
    ensures { Told (judge_source task.now plan.now)
        (end_over source_zeros) (steps.old, state_of values.old modes.old)
        result place.new (steps.new, state_of values.new modes.new) }
{
    let judgement = source_walk::judge(task, plan);
    if let Ok(count) = judgement.verdict {
        *steps = count;
        *values = judgement.state.values;
        *modes = judgement.state.modes;
    }
    tell(&judgement.verdict, place)
}

// Judges a restricted plan: the count of its steps and the end state.
pub fn ruphenqo_judge_restricted(
    task: &[u8],
    plan: &[u8],
    steps: &mut u64,
    values: &mut [i64; 64],
    modes: &mut [u16; 8],
    place: &mut u64,
) -> u32
    ensures { Told (judge_restricted task.now plan.now)
        (end_over zeros) (steps.old, state_of values.old modes.old)
        result place.new (steps.new, state_of values.new modes.new) }
{
    let judgement = restricted_judge::judge(task, plan);
    if let Ok(count) = judgement.verdict {
        *steps = count;
        *values = judgement.state.values;
        *modes = judgement.state.modes;
    }
    tell(&judgement.verdict, place)
}

// Takes a step by itself in the state that the arrays hold.
pub fn ruphenqo_step_restricted(
    task: &[u8],
    values: &mut [i64; 64],
    modes: &mut [u16; 8],
    k: u64,
    place: &mut u64,
) -> u32
    ensures { Told (step_restricted_alone task.now (state_of values.old modes.old) k)
        itself (state_of values.old modes.old)
        result place.new (state_of values.new modes.new) }
{
    let before = restricted_state::State {
        values: *values,
        modes: *modes,
    };
    let answer = restricted_state::step_alone(task, before, k as usize);
    if answer.verdict.is_ok() {
        *values = answer.state.values;
        *modes = answer.state.modes;
    }
    tell(&answer.verdict, place)
}

// Takes a step by itself in the state that the arrays hold, in a source task.
pub fn ruphenqo_step_source(
    task: &[u8],
    values: &mut [i64; 8],
    modes: &mut [u16; 4],
    k: u64,
    place: &mut u64,
) -> u32
    ensures { Told (step_source_alone task.now (state_of values.old modes.old) k)
        itself (state_of values.old modes.old)
        result place.new (state_of values.new modes.new) }
{
    let before = source_state::State {
        values: *values,
        modes: *modes,
    };
    let answer = source_state::step_alone(task, before, k as usize);
    if answer.verdict.is_ok() {
        *values = answer.state.values;
        *modes = answer.state.modes;
    }
    tell(&answer.verdict, place)
}

fn tell_price(priced: Result<u64, Refusal>, price: &mut u64, place: &mut u64) -> u32
    ensures { Told (answer_of priced) itself price.old result place.new price.new }
{
    if let Ok(sum) = priced {
        *price = sum;
    }
    tell(&priced, place)
}

// The price of a step by itself.
pub fn ruphenqo_price_step(
    task: &[u8],
    values: &[i64; 8],
    modes: &[u16; 4],
    k: u64,
    price: &mut u64,
    place: &mut u64,
) -> u32
    ensures { Told (price_step task.now (state_of values.now modes.now) k) itself price.old
        result place.new price.new }
{
    let before = source_state::State {
        values: *values,
        modes: *modes,
    };
    tell_price(
        source_state::price_step(task, before, k as usize),
        price,
        place,
    )
}

// The price of a plan.
pub fn ruphenqo_price_plan(task: &[u8], plan: &[u8], price: &mut u64, place: &mut u64) -> u32
    ensures { Told (price_plan task.now plan.now) itself price.old result place.new price.new }
{
    tell_price(source_walk::price_plan(task, plan), price, place)
}

fn tell_written(written: Result<usize, Refusal>, length: &mut u64, place: &mut u64) -> u32
    ensures { Told (answer_of written) itself length.old result place.new length.new }
{
    if let Ok(count) = written {
        *length = count as u64;
    }
    tell(&written, place)
}

// The lowered task's file, written into lent output.
pub fn ruphenqo_lower(task: &[u8], out: &mut [u8], length: &mut u64, place: &mut u64) -> u32
    ensures told { Told (lent out.old (lower_bytes task.now)).0 itself length.old
        result place.new length.new }
    ensures out_after { out.new ≡ (lent out.old (lower_bytes task.now)).1 }
{
    tell_written(lowering_file::lower(task, out), length, place)
}

// The expansion of a source plan, written into lent output.
pub fn ruphenqo_expand(
    task: &[u8],
    plan: &[u8],
    out: &mut [u8],
    length: &mut u64,
    place: &mut u64,
) -> u32
    ensures told { Told (lent out.old (expand_bytes task.now plan.now)).0 itself length.old
        result place.new length.new }
    ensures out_after { out.new ≡ (lent out.old (expand_bytes task.now plan.now)).1 }
{
    tell_written(plan_expand::expand(task, plan, out), length, place)
}

// The listing of a source plan, written into lent output. A refused task or plan is a line of it: the only refusal is 8.
pub fn ruphenqo_list(
    task: &[u8],
    plan: &[u8],
    out: &mut [u8],
    length: &mut u64,
    place: &mut u64,
) -> u32
    ensures told { Told (lent out.old (given (listing task.now plan.now))).0 itself length.old
        result place.new length.new }
    ensures out_after { out.new ≡ (lent out.old (given (listing task.now plan.now))).1 }
{
    tell_written(listing::list(task, plan, out), length, place)
}

// The source plan that a restricted plan of the lowering projects to, written into lent output.
pub fn ruphenqo_project(
    task: &[u8],
    plan: &[u8],
    out: &mut [u8],
    length: &mut u64,
    place: &mut u64,
) -> u32
    ensures told { Told (lent out.old (project_bytes task.now plan.now)).0 itself length.old
        result place.new length.new }
    ensures out_after { out.new ≡ (lent out.old (project_bytes task.now plan.now)).1 }
{
    tell_written(plan_project::project(task, plan, out), length, place)
}

// The text of an answer's number, written into lent output. The only refusal is 8.
pub fn ruphenqo_refusal_text(number: u32, out: &mut [u8], length: &mut u64, place: &mut u64) -> u32
    ensures told { Told (lent out.old (given (refusal_text number))).0 itself length.old result place.new length.new }
    ensures out_after { out.new ≡ (lent out.old (given (refusal_text number))).1 }
{
    tell_written(refusals::write_text(number, out), length, place)
}
