// Stores into output that a caller lends: a number of some bytes, least byte first, some bytes of an array, and a run of one number.
// Each function writes from a place on and gives the place behind what it wrote. It never looks whether there is room (its caller shows
// that there is), never refuses, and stores nothing but the bytes that its contract names. Into output of length 0 it stores nothing: it
// only counts, and so a call on such output gives the length of what the same call writes.
// Beside the code stand the laws of every loop that tests, changes or writes (proofs/).
#![tactic(auto)]

ghost use Rattle.std.specs.Prelude.{◌≤◌, replicate, take};
ghost use Rattle.integers.specs.Numbers.{bytes_of};
ghost use Rattle.lists.specs.Numbers.{numbers_bytes};
ghost use Rattle.lists.specs.Writing.{Room, Wrote};

// A number of a width, least byte first, at a place.
pub fn put_number(out: &mut [u8], at: usize, n: u32, width: usize) -> usize
    requires { Room out.old at (bytes_of width n) }
    ensures { Wrote out.old at (bytes_of width n) out.new result }
{
    let end = at + width;
    if out.is_empty() {
        return end;
    }
    let mut rest = n;
    for slot in out[at..end].iter_mut() {
        *slot = (rest % 256) as u8;
        rest /= 256;
    }
    end
}

// Bytes as they are.
pub fn put_bytes(out: &mut [u8], at: usize, bytes: &[u8]) -> usize
    requires { Room out.old at bytes.now }
    ensures { Wrote out.old at bytes.now out.new result }
{
    let end = at + bytes.len();
    if out.is_empty() {
        return end;
    }
    for i in 0..bytes.len() {
        out[at + i] = bytes[i];
    }
    end
}

// One number of two bytes so many times, as an expanded plan repeats an action.
pub fn fill_run(out: &mut [u8], at: usize, number: u16, count: usize) -> usize
    requires { Room out.old at (numbers_bytes 2 (replicate count number)) }
    ensures { Wrote out.old at (numbers_bytes 2 (replicate count number)) out.new result }
{
    let end = at + 2 * count;
    if out.is_empty() {
        return end;
    }
    let [low, high] = number.to_le_bytes();
    let run = &mut out[at..end];
    for i in 0..count {
        run[2 * i] = low;
        run[2 * i + 1] = high;
    }
    end
}
