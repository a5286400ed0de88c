// Runs each call of cases.bin and prints a line for each: its number, its name, and what it answered. The file `stdout` has what another
// implementation answers; tests/make-cases writes both, and its head says how a record is laid out.
#![tactic(auto)]

mod calls;
mod lines;
mod outputs;
mod states;

ghost use Rattle.std.specs.Prelude.{◌≤◌, IfOk, length};

use std::fs::File;
use std::io;
use std::io::Read;

// The bytes in front of a record's name.
const HEAD: usize = 16;

// Room for the file.
const ROOM: usize = 300_000;

// Runs the record at the start of s, and answers how many bytes it has: 0 where no whole record is left.
fn run_record(rt: &impl Print, s: &[u8], number: u64) -> io::Result<usize>
    ensures { IfOk result (λ size. size ≤ length s.now) }
{
    if s.len() < HEAD {
        return Ok(0);
    }
    let entry = s[0];
    let name_end = HEAD + integers::number_at(s, 1, 1) as usize;
    let task_end = name_end + integers::number_at(s, 2, 2) as usize;
    let end = task_end + integers::number_at(s, 4, 2) as usize;
    let lent = integers::number_at(s, 6, 2);
    let k = states::whole(integers::number_at(s, 8, 4), integers::number_at(s, 12, 4)) as usize;
    if s.len() < end {
        return Ok(0);
    }
    lines::start(rt, number, &s[HEAD..name_end])?;
    calls::run(
        rt,
        entry,
        &s[name_end..task_end],
        &s[task_end..end],
        k,
        lent,
    )?;
    lines::end(rt)?;
    Ok(end)
}

// Runs the records of the file, in their order.
fn run_all(rt: &impl Print, s: &[u8]) -> io::Result<()> {
    let mut at = 0;
    let mut number = 0;
    while at < s.len() {
        let size = run_record(rt, &s[at..], number)?;
        if size == 0 {
            return Ok(());
        }
        at += size;
        number += 1;
    }
    Ok(())
}

// Reads until the buffer is full or the input ends, and answers how many bytes stand at the front of the buffer.
fn read_full(file: &mut impl Read, buffer: &mut [u8]) -> io::Result<usize>
    ensures { IfOk result (λ size. size ≤ length buffer.new) }
{
    let mut done = 0;
    while done < buffer.len() {
        let n = file.read(&mut buffer[done..])?;
        if n == 0 {
            return Ok(done);
        }
        done += n;
    }
    Ok(done)
}

fn main(rt: HostRuntime) -> io::Result<()> {
    let mut file = File::open(&rt, "cases.bin")?;
    let mut buffer = test_lent::room::<ROOM>();
    let size = read_full(&mut file, &mut buffer)?;
    run_all(&rt, &buffer[..size])
}
