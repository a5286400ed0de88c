// Writes the text of numbers, one a line: each power of ten of 64 bits, one less and one more, then the limits of 64 bits, each as a natural
// number and, where it fits, as a whole number with both signs. tests/make-digits writes the file `stdout`, by Python.
#![tactic(auto)]

ghost use Rattle.std.specs.Prelude.{length, ◌≤◌};

use std::io;

// The first bytes of a text, so many, as a line.
fn line(rt: &impl Print, text: &[u8], size: usize) -> io::Result<()>
    requires { size ≤ length text.now }
{
    rt.write_all(&text[..size])?;
    rt.write_all(b"\n")
}

fn natural(rt: &impl Print, n: u64) -> io::Result<()> {
    let mut text = [0u8; 20];
    let size = listing_text::put_natural(&mut text, 0, n);
    line(rt, &text, size)
}

fn integer(rt: &impl Print, z: i64) -> io::Result<()> {
    let mut text = [0u8; 20];
    let size = listing_text::put_integer(&mut text, 0, z);
    line(rt, &text, size)
}

fn number(rt: &impl Print, n: u64) -> io::Result<()> {
    natural(rt, n)?;
    if n < 9223372036854775808 {
        let z = n as i64;
        integer(rt, z)?;
        integer(rt, -z)?;
    }
    Ok(())
}

fn around(rt: &impl Print, n: u64) -> io::Result<()>
    requires { (1 ≤ n) × (n ≤ 10000000000000000000) }
{
    number(rt, n - 1)?;
    number(rt, n)?;
    number(rt, n + 1)
}

fn powers(rt: &impl Print) -> io::Result<()> {
    let mut power: u64 = 1;
    while power <= 1000000000000000000 {
        around(rt, power)?;
        power *= 10;
    }
    around(rt, power)
}

fn main(rt: HostRuntime) -> io::Result<()> {
    powers(&rt)?;
    number(&rt, 9223372036854775807)?;
    integer(&rt, -9223372036854775808)?;
    number(&rt, 18446744073709551615)
}
