// Whole numbers: the leaves that compare them, divide them, and read and write them as the operands of a file.
//
// Every contract is an equation with a definition of specs/. The crate never knows of commands, tasks or plans: what a number is for,
// and which numbers are refused, is its callers' affair.
#![tactic(auto)]

ghost use Rattle.std.specs.Prelude.{◌≡◌, ◌+◌, ◌^◌, ◌≤◌, ◌<◌, length, nat_abs};
ghost use Rattle.std.specs.Int.Signed.{le_z};
ghost use Rattle.integers.specs.Parts.{Within};
ghost use Rattle.integers.specs.Division.{quotient_of, residue_of};
ghost use Rattle.integers.specs.Numbers.{number_at, bits_of, signed_of};
ghost use Rattle.integers.specs.Relation.{relation_of, related, between, within_limit};

// Whether a value stands in a relation, given by its number, to a constant. A number over 4 is read as 4.
pub fn relation_holds(value: i64, relation: u16, constant: i64) -> bool
    ensures { result ≡ related (relation_of relation) value constant }
{
    match relation {
        0 => value < constant,
        1 => value <= constant,
        2 => constant <= value,
        3 => constant < value,
        _ => value == constant,
    }
}

// Whether a value lies between two bounds, the bounds included.
pub fn is_between(lower: i64, value: i64, upper: i64) -> bool
    ensures { result ≡ between lower upper value }
{
    lower <= value && value <= upper
}

// |z|, for every z, the least included.
pub fn magnitude(z: i64) -> u64
    ensures { result ≡ nat_abs z }
{
    z.unsigned_abs()
}

// Whether |value| is at most a limit.
pub fn is_within(value: i64, limit: u64) -> bool
    ensures { result ≡ within_limit limit value }
{
    value.unsigned_abs() <= limit
}

// The r with y = c × q + r and 0 ≤ r < |c|, for every sign of y and c; c is not 0.
pub fn residue(y: i64, c: i64) -> i64
    requires { Within 1000000000 y × Within 1000000000 c × (0 < nat_abs c) }
    ensures { result ≡ residue_of y c }
{
    let r = ((y as i32) % (c as i32)) as i64;
    if 0 <= r {
        return r;
    }
    if 0 < c { r + c } else { r - c }
}

// The q with y = c × q + r and 0 ≤ r < |c|, for every sign of y and c; c is not 0.
pub fn quotient(y: i64, c: i64) -> i64
    requires { Within 1000000000 y × Within 1000000000 c × (0 < nat_abs c) }
    ensures { result ≡ quotient_of y c }
{
    let a = y as i32;
    let b = c as i32;
    let q = (a / b) as i64;
    if 0 <= a % b {
        return q;
    }
    if 0 < b { q - 1 } else { q + 1 }
}

// The number of a width that stands at a place, least byte first. It is below 256 to the width, so that a caller may narrow it.
pub fn number_at(s: &[u8], place: usize, width: usize) -> u32
    requires { (place + width ≤ length s.now) × (width ≤ 4) }
    ensures { (result ≡ number_at s.now place width) × (result < 256 ^ width) }
{
    let mut number: u32 = 0;
    for byte in s[place..place + width].iter().rev() {
        number = number * 256 + *byte as u32;
    }
    number
}

// The number that 32 bits stand for in two's complement.
pub fn signed(bits: u32) -> i64
    ensures { result ≡ signed_of 4 bits }
{
    bits.cast_signed() as i64
}

// The 32 bits that stand for a number in two's complement; `signed` reads them back.
pub fn bits(z: i64) -> u32
    requires { nat_abs z < 2147483648 }
    ensures { result ≡ bits_of 4 z }
{
    (z as i32).cast_unsigned()
}

// Whether 32 bits, as a signed number, are within a limit of 0.
pub fn bits_within(bits: u32, limit: u32) -> bool
    ensures { result ≡ within_limit limit (signed_of 4 bits) }
{
    is_within(signed(bits), limit as u64)
}

// Whether one number is at most another, both as 32 bits.
pub fn bits_at_most(x: u32, y: u32) -> bool
    ensures { result ≡ le_z (signed_of 4 x) (signed_of 4 y) }
{
    signed(x) <= signed(y)
}
