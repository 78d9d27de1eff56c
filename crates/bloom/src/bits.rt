// A key's four bits among the bytes of a filter.
ghost use Rattle.std.specs.Prelude.{◌≡◌, ◌/◌, ◌<◌, ◌≤◌, length};
ghost use Rattle.bloom.specs.Bits.{is_set, with_bit, used, place, cleared, all_four, with_four};

use keys::{Key, home};

// How many bytes serve at most.
pub const MOST_BYTES: usize = 65536;

// How many bits a key has.
const BITS: u8 = 4;

// How many of the bytes serve.
#[tactic(auto, unfolding(crate::specs::Bits::used))]
fn used_bytes(bytes: &[u8]) -> usize
    ensures value { result ≡ used bytes.now }
    ensures bound { (result ≤ length bytes.now) × (result ≤ 65536) }
{
    bytes.len().min(MOST_BYTES)
}

// The place of the key's bit under this seed, over so many bytes.
#[tactic(auto, unfolding(crate::specs::Bits::place))]
fn bit_place<K: Key>(key: K, long: usize, seed: u8) -> usize
    requires { (0 < long) × (long ≤ 65536) }
    ensures at { result ≡ place (K.Key.bytes key) long seed }
    ensures within { result / 8 < long }
{
    (home(key, seed) % (8 * long as u64)) as usize
}

// Whether the key's bit under this seed is set among these bytes.
fn has_bit<K: Key>(bytes: &[u8], key: K, seed: u8) -> bool
    requires { (0 < length bytes.now) × (length bytes.now ≤ 65536) }
    ensures { result ≡ is_set bytes.now (place (K.Key.bytes key) (length bytes.now) seed) }
{
    let place = bit_place(key, bytes.len(), seed);
    (bytes[place / 8] >> (place % 8)) % 2 == 1
}

// Sets the key's bit under this seed among these bytes.
fn set_bit<K: Key>(bytes: &mut [u8], key: K, seed: u8)
    requires { (0 < length bytes.old) × (length bytes.old ≤ 65536) }
    ensures { bytes.new ≡ with_bit bytes.old (place (K.Key.bytes key) (length bytes.old) seed) }
{
    let place = bit_place(key, bytes.len(), seed);
    bytes[place / 8] |= 1 << (place % 8);
}

// Whether the key's four bits are set; over no bytes, yes.
pub(crate) fn has_bits<K: Key>(bytes: &[u8], key: K) -> bool
    ensures { result ≡ all_four (K.Key.bytes key) bytes.now }
{
    let served = &bytes[..used_bytes(bytes)];
    served.is_empty() || (0..BITS).all(|seed| has_bit(served, key, seed))
}

// Sets the key's four bits; over no bytes, nothing. It stays a loop: of what a closure in for_each changes nothing is known.
pub(crate) fn set_bits<K: Key>(bytes: &mut [u8], key: K)
    ensures { bytes.new ≡ with_four (K.Key.bytes key) bytes.old }
{
    let long = used_bytes(bytes);
    let served = &mut bytes[..long];
    if !served.is_empty() {
        for seed in 0..BITS {
            set_bit(served, key, seed);
        }
    }
}

// Zeroes the bytes that serve.
pub(crate) fn clear_bits(bytes: &mut [u8])
    ensures { bytes.new ≡ cleared bytes.old }
{
    let long = used_bytes(bytes);
    bytes[..long].fill(0);
}
