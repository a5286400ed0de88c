// The fields of a line, each behind a space, and its start and end.
use answers::Refusal;
use std::fmt::Display;
use std::io;

pub(crate) fn start(rt: &impl Print, number: u64, name: &[u8]) -> io::Result<()> {
    print!(rt; "{number} ")?;
    rt.write_all(name)
}

pub(crate) fn end(rt: &impl Print) -> io::Result<()> {
    rt.write_all(b"\n")
}

pub(crate) fn natural(rt: &impl Print, n: u64) -> io::Result<()> {
    print!(rt; " {n}")
}

pub(crate) fn refusal(rt: &impl Print, refusal: Refusal) -> io::Result<()> {
    print!(rt; " {refusal}")
}

// What a function for C answered: the refusal, where there is one.
pub(crate) fn answer(rt: &impl Print, number: u32, place: u64) -> io::Result<()> {
    if number == 0 {
        return Ok(());
    }
    print!(rt; " refused {number} {place}")
}

// Each number of an array.
pub(crate) fn numbers<T: Display>(rt: &impl Print, all: &[T]) -> io::Result<()> {
    for number in all {
        print!(rt; " {number}")?;
    }
    Ok(())
}

// Two digits a byte.
pub(crate) fn bytes(rt: &impl Print, all: &[u8]) -> io::Result<()> {
    rt.write_all(b" ")?;
    for byte in all {
        print!(rt; "{byte:02x}")?;
    }
    Ok(())
}
