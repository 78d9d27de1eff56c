// FNV-1a of 64 bits.
ghost use Rattle.std.specs.Prelude.{◌≡◌, ◌∷◌};
ghost use Rattle.keys.specs.Hashing.{mixed, mixed_all, fnv1a};

// The value before the first byte.
pub const BASIS: u64 = 0xcbf29ce484222325;

// The value that each step multiplies by.
pub const PRIME: u64 = 0x100000001b3;

// One byte more: it is xored in, and the sum is multiplied modulo 2^64.
pub fn mix_byte(sum: u64, byte: u8) -> u64
    ensures { result ≡ mixed sum byte }
{
    (sum ^ u64::from(byte)).wrapping_mul(PRIME)
}

// All bytes, first to last.
pub fn mix_bytes(start: u64, bytes: &[u8]) -> u64
    ensures { result ≡ mixed_all start bytes.now }
{
    bytes.iter().fold(start, |sum, byte| mix_byte(sum, *byte))
}

// The hash of some bytes.
pub fn hash_of(bytes: &[u8]) -> u64
    ensures { result ≡ fnv1a bytes.now }
{
    mix_bytes(BASIS, bytes)
}

// The hash of one byte followed by others, which stand elsewhere.
pub fn hash_behind(first: u8, bytes: &[u8]) -> u64
    ensures { result ≡ fnv1a (first ∷ bytes.now) }
{
    mix_bytes(mix_byte(BASIS, first), bytes)
}
