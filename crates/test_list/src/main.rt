// Runs the listing program on the files in the sub-folders of data/: the name of each case, then what is printed for it. tests/list-cases makes
// the files and what must be printed.
#![tactic(auto)]

use std::io;
use std::rt::Files;

fn case(
    rt: &(impl Files + Print),
    name: &[u8],
    task_path: &[u8],
    plan_path: &[u8],
) -> io::Result<()> {
    rt.write_all(name)?;
    rt.write_all(b"\n")?;
    listing_program::list_files(rt, task_path, plan_path)
}

// Plans that are listed.
fn listed(rt: &(impl Files + Print)) -> io::Result<()> {
    case(
        rt,
        b"the example of document 01",
        b"example/task.bin",
        b"example/plan.bin",
    )?;
    case(
        rt,
        b"all five effects and negative values",
        b"effects/task.bin",
        b"effects/plan.bin",
    )?;
    case(
        rt,
        b"an empty plan and an empty goal",
        b"nothing/task.bin",
        b"nothing/plan.bin",
    )?;
    case(
        rt,
        b"a goal that is met",
        b"goal/task.bin",
        b"goal/plan.bin",
    )?;
    case(
        rt,
        b"a plan of 257 steps",
        b"example/task.bin",
        b"parts/plan.bin",
    )
}

// Files that can't be opened, or not read: that comes before a file that is too large.
fn unopened(rt: &(impl Files + Print)) -> io::Result<()> {
    case(rt, b"no task.bin", b"missing/task.bin", b"example/plan.bin")?;
    case(rt, b"no plan.bin", b"example/task.bin", b"missing/plan.bin")?;
    case(rt, b"neither", b"missing/task.bin", b"missing/plan.bin")?;
    case(
        rt,
        b"no task.bin, a plan too large",
        b"missing/task.bin",
        b"large/plan.bin",
    )?;
    case(
        rt,
        b"a task too large, no plan.bin",
        b"large/task.bin",
        b"missing/plan.bin",
    )?;
    case(
        rt,
        b"a folder for task.bin",
        b"folder/task.bin",
        b"example/plan.bin",
    )?;
    case(
        rt,
        b"a folder for plan.bin",
        b"example/task.bin",
        b"folder/plan.bin",
    )
}

// Files at their limits and past them.
fn sized(rt: &(impl Files + Print)) -> io::Result<()> {
    case(
        rt,
        b"a task of 16,384 bytes",
        b"limit/task.bin",
        b"example/plan.bin",
    )?;
    case(
        rt,
        b"a task of 16,385 bytes",
        b"large/task.bin",
        b"example/plan.bin",
    )?;
    case(
        rt,
        b"a plan of 32,768 bytes",
        b"example/task.bin",
        b"limit/plan.bin",
    )?;
    case(
        rt,
        b"a plan of 32,770 bytes",
        b"example/task.bin",
        b"large/plan.bin",
    )
}

// Tasks that are refused.
fn tasks_refused(rt: &(impl Files + Print)) -> io::Result<()> {
    case(
        rt,
        b"refusal 1: Z before G",
        b"refused1/task.bin",
        b"example/plan.bin",
    )?;
    case(
        rt,
        b"refusal 2: no Z",
        b"refused2/task.bin",
        b"example/plan.bin",
    )?;
    case(
        rt,
        b"refusal 3: bytes behind Z",
        b"refused3/task.bin",
        b"example/plan.bin",
    )?;
    case(
        rt,
        b"refusal 4: a ninth variable",
        b"refused4/task.bin",
        b"example/plan.bin",
    )?;
    case(
        rt,
        b"refusal 5: no such variable",
        b"refused5/task.bin",
        b"example/plan.bin",
    )?;
    case(
        rt,
        b"refusal 6: a start outside its bounds",
        b"refused6/task.bin",
        b"example/plan.bin",
    )?;
    case(
        rt,
        b"refusal 7: a second numeric effect",
        b"refused7/task.bin",
        b"example/plan.bin",
    )
}

// Plans that are refused.
fn plans_refused(rt: &(impl Files + Print)) -> io::Result<()> {
    case(
        rt,
        b"refusal 10: a plan cut in the middle",
        b"example/task.bin",
        b"refused10/plan.bin",
    )?;
    case(
        rt,
        b"refusal 11: no such action",
        b"goal/task.bin",
        b"refused11/plan.bin",
    )?;
    case(
        rt,
        b"refusal 12: past the bounds",
        b"goal/task.bin",
        b"refused12/plan.bin",
    )?;
    case(
        rt,
        b"refusal 13: the goal is not met",
        b"goal/task.bin",
        b"nothing/plan.bin",
    )
}

fn main(rt: HostRuntime) -> io::Result<()> {
    listed(&rt)?;
    unopened(&rt)?;
    sized(&rt)?;
    tasks_refused(&rt)?;
    plans_refused(&rt)
}
