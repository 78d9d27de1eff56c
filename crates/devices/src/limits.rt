// What a device and a container take.
ghost use Rattle.std.specs.Prelude.{◌≡◌, ◌+◌, ◌&&◌, nat_le, nat_lt};

use records::{MOST_BYTES, MOST_RECORDS};

// Whether a device stores records of this level and payload length at all.
pub fn is_storable(level: u8, len: usize) -> bool
    ensures { result ≡ (nat_le level 6 && (nat_le 1 len && nat_le len 1280)) }
{
    level <= 6 && (1..=1280).contains(&len)
}

// Whether a payload of `len` bytes joins so many records and payload bytes in one container.
pub fn joins(records: usize, bytes: usize, len: usize) -> bool
    ensures { result ≡ (nat_lt records 63 && nat_le (bytes + len) 7168) }
{
    records < MOST_RECORDS && len <= MOST_BYTES && bytes <= MOST_BYTES - len
}
