// The listing program: what it prints for what its two files hold, and the files themselves.
//
// What a file gives and what reaches the standard output can't be stated. So far as a contract reaches, `print_files`, where it answers that it
// could write, has written the program's output for what the two files hold, `listing_program_of`, and nothing more (of a writer that tells what it
// holds; of a failed write nothing is said): of a listing, `listing::begin` ensures that all of it is left; `listing::put_part`, that what was left
// is its bytes and what is left then; and the loop ends where nothing is left. It is proved that it ends, and that nothing is read or stored out of
// bounds.
#![tactic(auto)]

ghost use Rattle.std.specs.Prelude.{◌≡◌, ◌≤◌, OnOk, IfSome, length};
ghost use Rattle.std.specs.Io.KnownBytes.{Appends};
ghost use Rattle.io.specs.Counts.{IsPrefixLen};
ghost use Rattle.model.specs.Plans.{plan_numbers};
ghost use Rattle.model.specs.Listing.{listing, listing_program_of};
ghost use Rattle.source_step.specs.Sizes.{VARIABLES, MODES};
ghost use Rattle.listing.specs.Parts.{PART, Pending, left_of};
ghost use Rattle.listing_program.specs.Printed.{file_of};

use listing::{PART, Rest};
use source_step::{MARKS, MODES, NUMBERS, ROWS, VARIABLES};
use std::fs::File;
use std::io::{Read, Write};
use std::rt::Files;
use std::{io, str};

// How many bytes the program takes of each file.
const TASK_LIMIT: usize = 16384;

const PLAN_LIMIT: usize = 32768;

// Writes what is left of a listing, part by part, each in the same output.
fn print_rest<W: Write>(
    to: &mut W,
    rest: Rest,
    plan: &[u8],
    out: &mut [u8],
    marks: &[[u16; MARKS]],
    numbers: &[[i64; NUMBERS]],
    values: &mut [i64; VARIABLES],
    modes: &mut [u16; MODES],
) -> io::Result<()>
    requires { (PART ≤ length out.old) × Pending rest (plan_numbers plan.now) marks.now numbers.now values.old modes.old }
    ensures { OnOk result (Appends (W.contents to.old) (W.contents to.new)
        (left_of rest (plan_numbers plan.now) marks.now numbers.now values.old modes.old)) }
{
    let mut left = rest;
    while listing::any_left(left) {
        let part = listing::put_part(out, plan, left, marks, numbers, values, modes);
        let count = part.count;
        to.write_all(&out[..count])?;
        left = part.rest;
    }
    Ok(())
}

// Writes the listing of a task and a plan.
fn print_listing<W: Write>(to: &mut W, task: &[u8], plan: &[u8]) -> io::Result<()>
    ensures { OnOk result (Appends (W.contents to.old) (W.contents to.new) (listing task.now plan.now)) }
{
    let mut marks = [[0u16; MARKS]; ROWS];
    let mut numbers = [[0i64; NUMBERS]; ROWS];
    let mut values = [0i64; VARIABLES];
    let mut modes = [0u16; MODES];
    let mut out = [0u8; PART];
    let rest = listing::begin(
        task,
        plan,
        &mut marks,
        &mut numbers,
        &mut values,
        &mut modes,
    );
    print_rest(
        to,
        rest,
        plan,
        &mut out,
        &marks,
        &numbers,
        &mut values,
        &mut modes,
    )
}

// Writes the program's output for what the two files hold, as far as they can be read.
fn print_files<W: Write>(to: &mut W, task: Option<&[u8]>, plan: Option<&[u8]>) -> io::Result<()>
    ensures { OnOk result (Appends (W.contents to.old) (W.contents to.new) (listing_program_of (file_of task.entry) (file_of plan.entry))) }
{
    let (Some(task), Some(plan)) = (task, plan) else {
        return to.write_all(b"no file\n");
    };
    if (TASK_LIMIT < task.len()) | (PLAN_LIMIT < plan.len()) {
        return to.write_all(b"too large\n");
    }
    print_listing(to, task, plan)
}

// Reads until the buffer is full, the input ends or a read fails, and answers how many bytes stand at the front of the buffer.
fn read_full(file: &mut impl Read, buffer: &mut [u8]) -> usize
    ensures { IsPrefixLen result buffer.new }
{
    let mut done = 0;
    while done < buffer.len() {
        match file.read(&mut buffer[done..]) {
            Ok(0) => return done,
            Ok(n) => done += n,
            Err(_) => return done,
        }
    }
    done
}

// Reads a file into a buffer that has one byte more than the program takes: a file that is too large fills it. What can be opened and not read,
// as a folder, is no file either: a read of no bytes tells. Nor is a path that is no text the path of one.
fn read_file<'a>(files: &impl Files, path: &[u8], buffer: &'a mut [u8]) -> Option<&'a [u8]>
    ensures { IfSome result (λ part. IsPrefixLen (length part.now) buffer.old) }
{
    let name = str::from_utf8(path).ok()?;
    let mut file = File::open(files, name).ok()?;
    file.read(&mut buffer[..0]).ok()?;
    let len = read_full(&mut file, buffer);
    Some(&buffer[..len])
}

// Prints the listing of a task and a plan, by the names of their files.
pub fn list_files(rt: &(impl Files + Print), task_path: &[u8], plan_path: &[u8]) -> io::Result<()> {
    let mut task = [0u8; TASK_LIMIT + 1];
    let mut plan = [0u8; PLAN_LIMIT + 1];
    let task = read_file(rt, task_path, &mut task);
    let plan = read_file(rt, plan_path, &mut plan);
    print_files(&mut io::writer(rt), task, plan)
}
