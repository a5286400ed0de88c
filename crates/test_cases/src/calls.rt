// Makes the call of each entry and prints what it answered; calls that write are made in `outputs`.
use crate::{lines, outputs, states};
use answers::Refusal;
use file_check::Accepted;
use std::io;
use std::ops::Range;

// What reading a file answered: its counts.
fn tell_counts(rt: &impl Print, checked: Result<Accepted, Refusal>) -> io::Result<()> {
    match checked {
        Err(refusal) => lines::refusal(rt, refusal),
        Ok(accepted) => {
            print!(rt;
                " {} {} {}",
                accepted.variables, accepted.modes, accepted.actions
            )
        }
    }
}

// What finding an action answered: the start and end of its bytes.
fn tell_place(rt: &impl Print, placed: Result<Range<usize>, Refusal>) -> io::Result<()> {
    match placed {
        Err(refusal) => lines::refusal(rt, refusal),
        Ok(range) => print!(rt; " {} {}", range.start, range.end),
    }
}

fn tell_price(rt: &impl Print, priced: Result<u64, Refusal>) -> io::Result<()> {
    match priced {
        Err(refusal) => lines::refusal(rt, refusal),
        Ok(price) => lines::natural(rt, price),
    }
}

// A state: its values, then its modes.
fn tell_state(rt: &impl Print, values: &[i64], modes: &[u16]) -> io::Result<()> {
    lines::numbers(rt, values)?;
    lines::numbers(rt, modes)
}

fn judge_source(rt: &impl Print, task: &[u8], plan: &[u8]) -> io::Result<()> {
    let judgement = source_walk::judge(task, plan);
    match judgement.verdict {
        Err(refusal) => lines::refusal(rt, refusal),
        Ok(steps) => {
            lines::natural(rt, steps)?;
            tell_state(rt, &judgement.state.values, &judgement.state.modes)
        }
    }
}

fn judge_restricted(rt: &impl Print, task: &[u8], plan: &[u8]) -> io::Result<()> {
    let judgement = restricted_judge::judge(task, plan);
    match judgement.verdict {
        Err(refusal) => lines::refusal(rt, refusal),
        Ok(steps) => {
            lines::natural(rt, steps)?;
            tell_state(rt, &judgement.state.values, &judgement.state.modes)
        }
    }
}

// The state stands in the line of a refusal too: it comes back as it was handed in.
fn step_source(rt: &impl Print, task: &[u8], record: &[u8], k: usize) -> io::Result<()> {
    let answer = source_state::step_alone(task, states::source(record), k);
    if let Err(refusal) = answer.verdict {
        lines::refusal(rt, refusal)?;
    }
    tell_state(rt, &answer.state.values, &answer.state.modes)
}

fn step_restricted(rt: &impl Print, task: &[u8], record: &[u8], k: usize) -> io::Result<()> {
    let answer = restricted_state::step_alone(task, states::restricted(record), k);
    if let Err(refusal) = answer.verdict {
        lines::refusal(rt, refusal)?;
    }
    tell_state(rt, &answer.state.values, &answer.state.modes)
}

// The start, the lower bounds, the upper bounds and the sizes. The arrays hold a state before the call, and stand in the line of a refusal too.
fn start_source(rt: &impl Print, task: &[u8], record: &[u8]) -> io::Result<()> {
    let before = states::source(record);
    let mut values = before.values;
    let mut modes = before.modes;
    let mut lower = before.values;
    let mut upper = before.values;
    let mut sizes = before.modes;
    let mut place: u64 = 0;
    let number = ruphenqo::ruphenqo_source_start(
        task,
        &mut values,
        &mut modes,
        &mut lower,
        &mut upper,
        &mut sizes,
        &mut place,
    );
    lines::answer(rt, number, place)?;
    tell_state(rt, &values, &modes)?;
    lines::numbers(rt, &lower)?;
    tell_state(rt, &upper, &sizes)
}

fn start_restricted(rt: &impl Print, task: &[u8], record: &[u8]) -> io::Result<()> {
    let before = states::restricted(record);
    let mut values = before.values;
    let mut modes = before.modes;
    let mut place: u64 = 0;
    let number = ruphenqo::ruphenqo_restricted_start(task, &mut values, &mut modes, &mut place);
    lines::answer(rt, number, place)?;
    tell_state(rt, &values, &modes)
}

// The entries that read a file.
fn run_file(rt: &impl Print, entry: u8, task: &[u8], k: usize) -> io::Result<()> {
    match entry {
        1 => tell_counts(rt, file_check::check_source(task)),
        2 => tell_counts(rt, file_check::check_restricted(task)),
        3 => tell_place(rt, file_actions::place_source_action(task, k)),
        _ => tell_place(rt, file_actions::place_restricted_action(task, k)),
    }
}

// The entries that judge a plan or take a step.
fn run_steps(rt: &impl Print, entry: u8, task: &[u8], second: &[u8], k: usize) -> io::Result<()> {
    match entry {
        5 => judge_source(rt, task, second),
        6 => judge_restricted(rt, task, second),
        7 => step_source(rt, task, second, k),
        _ => step_restricted(rt, task, second, k),
    }
}

fn run_prices(rt: &impl Print, entry: u8, task: &[u8], second: &[u8], k: usize) -> io::Result<()> {
    match entry {
        12 => tell_price(rt, source_walk::price_plan(task, second)),
        _ => tell_price(
            rt,
            source_state::price_step(task, states::source(second), k),
        ),
    }
}

// The functions that are there for C alone.
fn run_for_c(
    rt: &impl Print,
    entry: u8,
    task: &[u8],
    second: &[u8],
    k: usize,
    lent: u32,
) -> io::Result<()> {
    match entry {
        15 => start_source(rt, task, second),
        16 => start_restricted(rt, task, second),
        17 => lines::natural(rt, ruphenqo::ruphenqo_version() as u64),
        _ => outputs::run_text(rt, (k % 4294967296) as u32, lent),
    }
}

// Makes the call of an entry, by its number in tests/make-cases, and prints what it answered.
pub(crate) fn run(
    rt: &impl Print,
    entry: u8,
    task: &[u8],
    second: &[u8],
    k: usize,
    lent: u32,
) -> io::Result<()> {
    match entry {
        1..=4 => run_file(rt, entry, task, k),
        9..=11 | 14 => outputs::run(rt, entry, task, second, lent),
        5..=8 => run_steps(rt, entry, task, second, k),
        12..=13 => run_prices(rt, entry, task, second, k),
        _ => run_for_c(rt, entry, task, second, k, lent),
    }
}
