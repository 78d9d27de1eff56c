// A whole use of an exact table: it covers exactly the keys learned, and says yes to exactly those of them marked.
ghost use Rattle.std.specs.Prelude.{◌≡◌, ◌&&◌, length, take};
ghost use Rattle.slots.specs.Tables.{listed};
ghost use Rattle.exact.specs.Exact.{exact_meaning};
ghost use Rattle.exact.specs.Whole.{Taught, Marked};

use crate::table::ExactTable;
use keys::Key;
use live::LiveSet;
use slots::Slot;

// Starts the set, and has it learn the keys in order, as far as there is space.
pub fn learn_all<K: Key>(set: &mut ExactTable<K>, keys: &[K])
    ensures { Taught K.bytes set.old keys.now set.new }
{
    set.start();
    for key in keys {
        // A key too many is refused, and left out.
        let _ = set.learn(*key);
    }
}

// Seals the set, and marks the keys.
pub fn mark_all<K: Key>(set: &mut ExactTable<K>, keys: &[K])
    ensures { Marked K.bytes set.old keys.now set.new }
{
    set.seal();
    for key in keys {
        set.mark(*key);
    }
}

// A sealed set over these slots that learned the first keys, as many as there are slots, and then had the second marked.
pub fn remember<K: Key>(slots: Vec<Slot<K>>, learned: &[K], marked: &[K]) -> ExactTable<K>
    ensures covers { (x : K) → (exact_meaning K.bytes).covers result x ≡ listed K.bytes (take (length slots.items) learned.now) x }
    ensures says { (x : K) → (exact_meaning K.bytes).says result x ≡ (listed K.bytes marked.now x && listed K.bytes (take (length slots.items) learned.now) x) }
{
    let mut set = ExactTable::over(slots);
    learn_all(&mut set, learned);
    mark_all(&mut set, marked);
    set
}
