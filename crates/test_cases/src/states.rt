// The numbers of a record. A state is values of 64 bits in two's complement, then modes of 16, least byte first; what the record lacks is 0.
ghost use Rattle.std.specs.Prelude.{◌≤◌};

// The number of which these are the lower and the upper 32 bits.
pub(crate) fn whole(low: u32, high: u32) -> u64 {
    low as u64 + 4294967296 * high as u64
}

// The number of which these are the 64 bits in two's complement.
fn signed(bits: u64) -> i64 {
    if bits < 9223372036854775808 {
        return bits as i64;
    }
    -1 - ((18446744073709551615 - bits) as i64)
}

// The value at a place of the record.
fn value_at(record: &[u8], place: usize) -> i64 {
    if record.len() < 8 {
        return 0;
    }
    if record.len() - 8 < place {
        return 0;
    }
    let low = integers::number_at(record, place, 4);
    let high = integers::number_at(record, place + 4, 4);
    signed(whole(low, high))
}

fn mode_at(record: &[u8], place: usize) -> u16 {
    if record.len() < 2 {
        return 0;
    }
    if record.len() - 2 < place {
        return 0;
    }
    (integers::number_at(record, place, 2) % 65536) as u16
}

// The values from the start of the record, and behind them the modes.
fn arrays<const N: usize, const M: usize>(record: &[u8]) -> ([i64; N], [u16; M])
    requires { (N ≤ 64) × (M ≤ 8) }
{
    let mut values = [0; N];
    let mut modes = [0; M];
    for (i, value) in values.iter_mut().enumerate() {
        *value = value_at(record, 8 * i);
    }
    for (i, mode) in modes.iter_mut().enumerate() {
        *mode = mode_at(record, 8 * N + 2 * i);
    }
    (values, modes)
}

// The state of a step in a source task.
pub(crate) fn source(record: &[u8]) -> source_state::State {
    let (values, modes) = arrays(record);
    source_state::State { values, modes }
}

// The same in a restricted task.
pub(crate) fn restricted(record: &[u8]) -> restricted_state::State {
    let (values, modes) = arrays(record);
    restricted_state::State { values, modes }
}
