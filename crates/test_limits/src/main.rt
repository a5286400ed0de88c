// Runs the limits of document 01 and what lies one past each: bounds of 10,000, 32 actions, plans and expansions of 1,000,000 steps. A line
// has the limit's name and what was answered. tests/make-limits writes the file `stdout`, from document 01 alone.
#![tactic(auto)]

use std::io;

// Reads a source file: its counts.
fn read(rt: &impl Print, name: &[u8], task: &[u8]) -> io::Result<()> {
    rt.write_all(name)?;
    match file_check::check_source(task) {
        Err(refusal) => println!(rt; " {refusal}"),
        Ok(accepted) => println!(rt;
            " {} {} {}",
            accepted.variables, accepted.modes, accepted.actions
        ),
    }
}

// V with a lower bound, an upper bound and a start of 0.
fn read_bounds(rt: &impl Print) -> io::Result<()> {
    read(
        rt,
        b"bounds -10000 10000",
        b"V\xf0\xd8\xff\xff\x10\x27\0\0\0\0\0\0GZ",
    )?;
    read(
        rt,
        b"bounds -10000 10001",
        b"V\xf0\xd8\xff\xff\x11\x27\0\0\0\0\0\0GZ",
    )?;
    read(
        rt,
        b"bounds -10001 10000",
        b"V\xef\xd8\xff\xff\x10\x27\0\0\0\0\0\0GZ",
    )
}

fn read_actions(rt: &impl Print) -> io::Result<()> {
    read(rt, b"actions 32", b"AAAAAAAAAAAAAAAAAAAAAAAAAAAAAAAAGZ")?;
    read(rt, b"actions 33", b"AAAAAAAAAAAAAAAAAAAAAAAAAAAAAAAAAGZ")
}

// Two bytes more than the longest plan.
const ROOM: usize = 2_000_002;

// Judges a plan of so many bytes, all of them 0, against a task whose only action asks for nothing: the count of steps.
fn judge(rt: &impl Print, name: &[u8], bytes: isize) -> io::Result<()> {
    let plan = test_lent::room::<ROOM>();
    let size = usize::try_from(bytes).unwrap_or(0).min(plan.len());
    rt.write_all(name)?;
    match source_walk::judge(b"AGZ", &plan[..size]).verdict {
        Err(refusal) => println!(rt; " {refusal}"),
        Ok(steps) => println!(rt; " {steps}"),
    }
}

fn judge_plans(rt: &impl Print) -> io::Result<()> {
    judge(rt, b"plan 1000000", 2000000)?;
    judge(rt, b"plan 1000001", 2000002)
}

// Expands a plan, with so many bytes of output lent: the length of the result. The checksum of all lent bytes, which had a pattern, follows.
// In the task, V 0 10000 9998, action 0 is L 0 with w0 9998, of price 19,999 throughout, and action 1 has no effect, of price 1.
fn expand(rt: &impl Print, name: &[u8], plan: &[u8], lent: isize) -> io::Result<()> {
    let mut room = test_lent::room::<ROOM>();
    let size = usize::try_from(lent).unwrap_or(0).min(room.len());
    let out = &mut room[..size];
    test_lent::fill(out);
    rt.write_all(name)?;
    match plan_expand::expand(
        b"V\0\0\0\0\x10\x27\0\0\x0e\x27\0\0AL\0\x0e\x27\0\0AGZ",
        plan,
        out,
    ) {
        Err(refusal) => print!(rt; " {refusal}")?,
        Ok(count) => print!(rt; " {count}")?,
    }
    println!(rt; " {}", test_lent::checksum(out))
}

// Action 0 fifty times, then action 1 fifty-one times: 50 × 19,999 + 50 is 1,000,000.
fn make_plan() -> [u8; 202] {
    let mut plan = [0u8; 202];
    for step in 50..101 {
        plan[2 * step] = 1;
    }
    plan
}

fn expand_plans(rt: &impl Print) -> io::Result<()> {
    let plan = make_plan();
    let million = file_actions::part(&plan, 0, 200);
    expand(rt, b"expansion 1000000", million, 2000002)?;
    expand(rt, b"expansion 1000000, output exact", million, 2000000)?;
    expand(rt, b"expansion 1000000, output one short", million, 1999999)?;
    expand(rt, b"expansion 1000001", &plan, 2000002)?;
    expand(rt, b"expansion 1059947", &[0u8; 106], 2000002)
}

fn main(rt: HostRuntime) -> io::Result<()> {
    read_bounds(&rt)?;
    read_actions(&rt)?;
    judge_plans(&rt)?;
    expand_plans(&rt)
}
