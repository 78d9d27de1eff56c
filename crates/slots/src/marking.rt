// Marks on the keys of a table, in place.
ghost use Rattle.std.specs.Prelude.{◌≡◌};
ghost use Rattle.slots.specs.Walks.{keys_of, probed};
ghost use Rattle.slots.specs.Marks.{unmarked, noted, marked, NoMarks, OneMark};

use crate::probe::Probe;
use crate::slot::Slot;
use crate::walk::probe_for;
use keys::Key;

// Takes every mark off.
pub fn unmark<K: Key>(slots: &mut [Slot<K>])
    ensures after { slots.new ≡ unmarked slots.old }
    ensures meaning { NoMarks K.bytes slots.old slots.new }
{
    for slot in slots {
        *slot = slot.without_mark();
    }
}

// Marks the key where its walk meets it; any other key changes nothing.
pub fn mark_key<K: Key>(slots: &mut [Slot<K>], key: K)
    ensures after { slots.new ≡ noted (probed K.bytes key (keys_of slots.old)) key slots.old }
    ensures meaning { OneMark K.bytes key slots.old slots.new }
{
    if let Probe::Found(place) = probe_for(slots, key) {
        slots[place] = Slot::Marked(key);
    }
}

// Whether a walk meets the key, and the key is marked there.
pub fn is_marked<K: Key>(slots: &[Slot<K>], key: K) -> bool
    ensures { result ≡ marked K.bytes slots.now key }
{
    matches!(probe_for(slots, key), Probe::Found(place) if slots[place].has_mark())
}
