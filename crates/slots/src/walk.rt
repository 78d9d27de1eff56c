// The walk of a key along the slots.
ghost use Rattle.std.specs.Prelude.{◌≡◌, ◌+◌, ◌^◌, ◌<◌, length};
ghost use Rattle.slots.specs.Walks.{key_of, keys_of, find, stop, home_of, probed, Within};

use crate::probe::Probe;
use crate::slot::Slot;
use keys::{Key, home};

// Where a walk stops at one slot, if it does.
fn stop_at<K: Key>(slot: &Slot<K>, place: usize, key: K) -> Option<Probe>
    ensures { result ≡ stop K.bytes key place (key_of slot.now) }
{
    match slot.key() {
        None => Some(Probe::Free(place)),
        Some(other) if other == key => Some(Probe::Found(place)),
        Some(_) => None,
    }
}

// Walks along a part of the slots, whose first has the place `from`, to the key or an empty slot.
fn scan<K: Key>(part: &[Slot<K>], from: usize, key: K) -> Probe
    requires { from + length part.now < 2 ^ 64 }
    ensures { result ≡ find K.bytes key from (keys_of part.now) }
{
    part.iter()
        .enumerate()
        .find_map(|(i, slot)| stop_at(slot, from + i, key))
        .unwrap_or(Probe::Full)
}

// Where the walk of a key begins, among so many slots.
fn home_among<K: Key>(key: K, long: usize) -> usize
    requires { 0 < long }
    ensures is { result ≡ home_of K.bytes key long }
    ensures within { result < long }
{
    (home(key, 0) % long as u64) as usize
}

// Walks from the key's home upward, and round to 0, to the key or an empty slot.
pub(crate) fn probe_for<K: Key>(slots: &[Slot<K>], key: K) -> Probe
    ensures answer { result ≡ probed K.bytes key (keys_of slots.now) }
    ensures within { Within result (length slots.now) }
{
    if slots.is_empty() {
        return Probe::Full;
    }
    let start = home_among(key, slots.len());
    let (below, above) = slots.split_at(start);
    match scan(above, start, key) {
        Probe::Full => scan(below, 0, key),
        met => met,
    }
}
