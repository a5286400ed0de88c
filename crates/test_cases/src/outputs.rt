// Calls that write into lent output. The output has a pattern before the call, and the line ends in a checksum of all of it after, which every
// byte changes: a refusal that writes, and a byte changed beyond the result, are seen.
use crate::lines;
use answers::Refusal;
use std::io;

// The longest result whose bytes are printed.
const SHOWN: usize = 32;

// The most bytes that are lent.
const ROOM: usize = 65_536;

// The bytes of a result, where it is short.
fn show(rt: &impl Print, out: &[u8], count: usize) -> io::Result<()> {
    if 0 < count && count <= SHOWN {
        lines::bytes(rt, file_actions::part(out, 0, count))?;
    }
    Ok(())
}

// The length of the result or the refusal, then the checksum of all that was lent.
fn tell(rt: &impl Print, written: Result<usize, Refusal>, out: &[u8]) -> io::Result<()> {
    match written {
        Err(refusal) => lines::refusal(rt, refusal)?,
        Ok(count) => {
            lines::natural(rt, count as u64)?;
            show(rt, out, count)?;
        }
    }
    lines::natural(rt, test_lent::checksum(out))
}

// The entries that write, by their numbers in tests/make-cases.
fn write(entry: u8, task: &[u8], plan: &[u8], out: &mut [u8]) -> Result<usize, Refusal> {
    match entry {
        9 => lowering_file::lower(task, out),
        10 => plan_expand::expand(task, plan, out),
        11 => plan_project::project(task, plan, out),
        _ => listing::list(task, plan, out),
    }
}

// Makes the call with so many bytes lent, at most those of the buffer.
pub(crate) fn run(
    rt: &impl Print,
    entry: u8,
    task: &[u8],
    plan: &[u8],
    lent: u32,
) -> io::Result<()> {
    let mut room = test_lent::room::<ROOM>();
    let size = (lent as usize).min(room.len());
    let out = &mut room[..size];
    test_lent::fill(out);
    let written = write(entry, task, plan, out);
    tell(rt, written, out)
}

// The same of a refusal's text, by the function for C.
pub(crate) fn run_text(rt: &impl Print, number: u32, lent: u32) -> io::Result<()> {
    let mut room = test_lent::room::<ROOM>();
    let size = (lent as usize).min(room.len());
    let out = &mut room[..size];
    test_lent::fill(out);
    let mut length: u64 = 0;
    let mut place: u64 = 0;
    let refusal = ruphenqo::ruphenqo_refusal_text(number, out, &mut length, &mut place);
    lines::answer(rt, refusal, place)?;
    if refusal == 0 {
        lines::natural(rt, length)?;
        show(rt, out, length as usize)?;
    }
    lines::natural(rt, test_lent::checksum(out))
}
