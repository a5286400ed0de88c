// Numbers in decimal, as ASCII text, stored into output that a caller lends; into output of length 0 nothing is stored, and the text is
// only counted. A text has no sign but the minus of a negative number, and no zero in front. Its digits are made without division: powers of
// ten are counted off the number, the highest first. The functions never look whether there is room (their callers show that there is) and
// never refuse.
#![tactic(auto)]

ghost use Rattle.std.specs.Prelude.{◌≡◌, ◌+◌, ◌*◌, ◌/◌, ◌%◌, ◌^◌, ◌<◌, ◌≤◌, cond, ltb, length, pos};
ghost use Rattle.std.specs.Int.Signed.{lt_z};
ghost use Rattle.lists.specs.Writing.{Room, Wrote};
ghost use Rattle.model.specs.Listing.{decimal, decimal_signed};
ghost use Rattle.listing_text.specs.Counting.{PLACES, powers_of_ten, taken_off, Off};

// The most digits of a number of 64 bits.
const PLACES: usize = 20;

// The powers of ten that such a number can have.
const POWERS: [u64; PLACES] = [
    1,
    10,
    100,
    1_000,
    10_000,
    100_000,
    1_000_000,
    10_000_000,
    100_000_000,
    1_000_000_000,
    10_000_000_000,
    100_000_000_000,
    1_000_000_000_000,
    10_000_000_000_000,
    100_000_000_000_000,
    1_000_000_000_000_000,
    10_000_000_000_000_000,
    100_000_000_000_000_000,
    1_000_000_000_000_000_000,
    10_000_000_000_000_000_000,
];

// The table, to be lent: where the const itself is indexed by a variable, all of it is written anew at each turn.
fn powers_of_ten() -> [u64; PLACES]
    ensures { result ≡ powers_of_ten }
{
    POWERS
}

// What was counted off a number: how often a power of ten was, and what is left.
#[derive(Drop)]
struct Counted {
    digit: u64,
    rest: u64,
}

// Counts a power off so many times at once, where what is left has it so often.
fn take_off(counted: Counted, power: u64, times: u64) -> Counted
    requires { (counted.digit + times ≤ 9) × (times * power < 2 ^ 64) }
    ensures { result ≡ taken_off times power counted }
{
    let all = times * power;
    if counted.rest < all {
        return counted;
    }
    Counted {
        digit: counted.digit + times,
        rest: counted.rest - all,
    }
}

// The largest number of which five times are a number of 64 bits.
const FIFTH: u64 = 3_689_348_814_741_910_323;

// Counts a power off a number five times at once, where the number has it so often.
fn take_five(n: u64, power: u64) -> Counted
    requires { n < 10 * power }
    ensures { Off n power 5 5 result }
{
    let none = Counted { digit: 0, rest: n };
    if FIFTH < power {
        return none;
    }
    take_off(none, power, 5)
}

// Counts a power of ten off a number that has it at most nine times: five at once, then one by one, up to so many as each name says.
fn count_off(n: u64, power: u64) -> Counted
    requires { n < 10 * power }
    ensures { (result.digit ≡ n / power) × (result.rest ≡ n % power) × (result.digit ≤ 9) }
{
    let five = take_five(n, power);
    let six = take_off(five, power, 1);
    let seven = take_off(six, power, 1);
    let eight = take_off(seven, power, 1);
    take_off(eight, power, 1)
}

// The place of the digit behind that of a power of ten: the same where that is a zero in front of the number.
fn next_place(place: usize, n: u64, power: u64) -> usize
    requires { place + 1 < 2 ^ 64 }
    ensures { result ≡ cond (ltb n power) place (place + 1) }
{
    if n < power {
        return place;
    }
    place + 1
}

// The digits of a number that has at most k. A zero in front of the number is stored over by the digit behind it, so that no branch looks for
// the first place.
fn store_digits(out: &mut [u8], at: usize, n: u64, k: usize, powers: &[u64; PLACES]) -> usize
    requires { (0 < k) × (k ≤ PLACES) × (n < 10 ^ k) × (powers.now ≡ powers_of_ten) × (at + length (decimal n) ≤ length out.old) }
    ensures { Wrote out.old at (decimal n) out.new result }
{
    let mut place = at;
    let mut rest = n;
    let mut left = k;
    while left > 1 {
        left -= 1;
        let power = powers[left];
        let counted = count_off(rest, power);
        out[place] = (48 + counted.digit) as u8;
        place = next_place(place, n, power);
        rest = counted.rest;
    }
    out[place] = (48 + rest) as u8;
    place + 1
}

// The place behind the digits of a number that has at most k, stored from a place on.
fn behind_digits(at: usize, n: u64, k: usize, powers: &[u64; PLACES]) -> usize
    requires { (0 < k) × (k ≤ PLACES) × (n < 10 ^ k) × (powers.now ≡ powers_of_ten) × (at + length (decimal n) ≤ 2 ^ 32) }
    ensures { result ≡ at + length (decimal n) }
{
    let mut place = at + 1;
    let mut left = k;
    while left > 1 {
        left -= 1;
        place = next_place(place, n, powers[left]);
    }
    place
}

// The digits of a number that has at most k.
fn put_digits(out: &mut [u8], at: usize, n: u64, k: usize, powers: &[u64; PLACES]) -> usize
    requires { (0 < k) × (k ≤ PLACES) × (n < 10 ^ k) × (powers.now ≡ powers_of_ten) × Room out.old at (decimal n) }
    ensures { Wrote out.old at (decimal n) out.new result }
{
    if out.len() == 0 {
        return behind_digits(at, n, k, powers);
    }
    store_digits(out, at, n, k, powers)
}

// The same, with a table of its own, for numbers that few listings have.
fn put_long(out: &mut [u8], at: usize, n: u64, k: usize) -> usize
    requires { (0 < k) × (k ≤ PLACES) × (n < 10 ^ k) × Room out.old at (decimal n) }
    ensures { Wrote out.old at (decimal n) out.new result }
{
    let powers = powers_of_ten();
    put_digits(out, at, n, k, &powers)
}

// The digits of a number, stored from a place on, and the place behind them.
pub fn put_natural(out: &mut [u8], at: usize, n: u64) -> usize
    requires { Room out.old at (decimal n) }
    ensures { Wrote out.old at (decimal n) out.new result }
{
    let powers = powers_of_ten();
    if n < powers[1] {
        return put_digits(out, at, n, 1, &powers);
    }
    if n < powers[4] {
        return put_digits(out, at, n, 4, &powers);
    }
    if n < powers[6] {
        return put_digits(out, at, n, 6, &powers);
    }
    if n < powers[12] {
        return put_long(out, at, n, 12);
    }
    put_long(out, at, n, PLACES)
}

// The place behind a number's sign.
fn behind_sign(at: usize, z: i64) -> usize
    requires { at + 1 < 2 ^ 64 }
    ensures { result ≡ cond (lt_z z (pos 0)) (at + 1) at }
{
    if z < 0 {
        return at + 1;
    }
    at
}

// A whole number, with a minus before it where it is negative, stored from a place on, and the place behind it. A minus that is not the number's
// is stored over.
pub fn put_integer(out: &mut [u8], at: usize, z: i64) -> usize
    requires { Room out.old at (decimal_signed z) }
    ensures { Wrote out.old at (decimal_signed z) out.new result }
{
    lists::put_number(out, at, 45, 1);
    put_natural(out, behind_sign(at, z), integers::magnitude(z))
}
