// What the test programs lend to a call that writes: output with a pattern before it, of which a checksum is printed behind it that every byte
// changes.
#![tactic(auto)]

ghost use Rattle.std.specs.Prelude.{◌≡◌, ◌<◌, length};
ghost use Rattle.test_lent.specs.Lent.{checksum_of, pattern, with_byte};

// Zeros. The contract gives only the length, so that no proof looks into the array.
pub fn room<const N: usize>() -> [u8; N]
    ensures { N ≡ length result }
{
    [0; N]
}

// The pattern that output has before the call.
pub fn fill(out: &mut [u8])
    ensures { out.new ≡ pattern (length out.old) }
{
    for (i, byte) in out.iter_mut().enumerate() {
        *byte = (i % 251) as u8;
    }
}

// The checksum of one byte more.
fn add(sum: u64, byte: u8) -> u64
    requires { sum < 1000000007 }
    ensures below { result < 1000000007 }
    ensures value { result ≡ with_byte sum byte }
{
    (sum * 257 + byte as u64 + 1) % 1000000007
}

// The checksum of bytes, the first one first.
#[tactic(auto, unfolding(crate::specs::Lent::checksum_of))]
pub fn checksum(bytes: &[u8]) -> u64
    ensures { result ≡ checksum_of bytes.now }
{
    let mut sum = 0;
    for byte in bytes {
        sum = add(sum, *byte);
    }
    sum
}
