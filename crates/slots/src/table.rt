// Lookup, insert and empty.
ghost use Rattle.std.specs.Prelude.{◌≡◌, ◌≤◌, List, length, replicate};
ghost use Rattle.slots.specs.declared.slot.Slot.TheVariants.{Empty};
ghost use Rattle.slots.specs.Walks.{keys_of, reached, looked};
ghost use Rattle.slots.specs.Tables.{holds, filled, Sound, Emptied, Inserted, put, listed, MadeBy};

use crate::probe::Probe;
use crate::slot::Slot;
use crate::walk::probe_for;
use keys::Key;

// Whether a walk meets the key in a table that is told to hold `count` keys.
pub fn lookup<K: Key>(slots: &[Slot<K>], count: usize, key: K) -> bool
    ensures answer { result ≡ looked K.bytes count (keys_of slots.now) key }
    ensures walk { filled (keys_of slots.now) ≤ count → result ≡ reached K.bytes (keys_of slots.now) key }
    ensures exact { Sound K.bytes (keys_of slots.now) → filled (keys_of slots.now) ≤ count → result ≡ holds K.bytes (keys_of slots.now) key }
    ensures since { (inserted : List K) → MadeBy K.bytes inserted (keys_of slots.now) → filled (keys_of slots.now) ≤ count → result ≡ listed K.bytes inserted key }
{
    count > 0 && probe_for(slots, key).is_found()
}

// Puts the key into the empty slot that its walk ends at, and tells where the walk ended.
pub fn insert<K: Key>(slots: &mut [Slot<K>], key: K) -> Probe
    ensures after { slots.new ≡ put result key slots.old }
    ensures meaning { Inserted K.bytes key (keys_of slots.old) result (keys_of slots.new) }
{
    let met = probe_for(slots, key);
    if let Probe::Free(place) = met {
        slots[place] = Slot::Plain(key);
    }
    met
}

// Empties every slot.
pub fn empty<K: Key>(slots: &mut [Slot<K>])
    ensures after { slots.new ≡ replicate (length slots.old) Empty }
    ensures meaning { Emptied K.bytes (keys_of slots.new) }
{
    slots.fill(Slot::Empty);
}
