// The exact table as a live set.
ghost use Rattle.std.specs.Prelude.{◌≡◌, false, length};
ghost use Rattle.live.specs.Meaning.{Started, Learned, Sealed, Noted};
ghost use Rattle.exact.specs.Exact.{exact_meaning, ExactStart, ExactLearn, ExactSeal, ExactMark};

use crate::table::ExactTable;
use keys::Key;
use live::{Intake, LiveSet};
use slots::Slot;

impl<K: Key> ExactTable<K> {
    // A table that has learned nothing, over these slots.
    pub fn over(mut slots: Vec<Slot<K>>) -> Self
        ensures own { ExactStart K.bytes result }
        ensures capacity { (exact_meaning K.bytes).capacity result ≡ length slots.items }
        ensures count { (exact_meaning K.bytes).count result ≡ 0 }
        ensures sealed { (exact_meaning K.bytes).sealed result ≡ false }
    {
        slots::empty(&mut slots);
        let intake = Intake::of(slots.len());
        ExactTable { slots, intake }
    }

    // The slots, handed back.
    pub fn into_slots(self) -> Vec<Slot<K>>
        ensures { result ≡ self.slots }
    {
        self.slots
    }
}

impl<K: Key> LiveSet<K> for ExactTable<K> {
    ghost meaning = { exact_meaning K.bytes };

    fn capacity(&self) -> usize {
        self.intake.capacity()
    }

    fn start(&mut self)
        ensures effect { Started (exact_meaning K.bytes) self.old self.new }
        ensures own { ExactStart K.bytes self.new }
    {
        slots::empty(&mut self.slots);
        self.intake.start();
    }

    fn learn(&mut self, key: K) -> bool
        ensures effect { Learned (exact_meaning K.bytes) self.old key result self.new }
        ensures own { ExactLearn K.bytes self.old key result self.new }
    {
        if !self.intake.learn() {
            return false;
        }
        slots::insert(&mut self.slots, key);
        true
    }

    fn seal(&mut self)
        ensures effect { Sealed (exact_meaning K.bytes) self.old self.new }
        ensures own { ExactSeal K.bytes self.old self.new }
    {
        slots::unmark(&mut self.slots);
        self.intake.seal();
    }

    fn mark(&mut self, key: K)
        ensures effect { Noted (exact_meaning K.bytes) self.old key self.new }
        ensures own { ExactMark K.bytes self.old key self.new }
    {
        if self.intake.is_sealed() {
            slots::mark_key(&mut self.slots, key);
        }
    }

    fn says(&self, key: K) -> bool {
        !self.intake.is_sealed() || slots::is_marked(&self.slots, key)
    }
}
