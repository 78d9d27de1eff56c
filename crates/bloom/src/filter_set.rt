// The Bloom filter as a live set.
ghost use Rattle.std.specs.Prelude.{◌≡◌};
ghost use Rattle.live.specs.Meaning.{Started, Learned, Sealed, Noted};
ghost use Rattle.bloom.specs.Filter.{bits_of, filter_meaning, FilterMade, FilterSeal, FilterMark};

use crate::bits::{clear_bits, has_bits, set_bits};
use crate::filter::BloomFilter;
use keys::Key;
use live::{Intake, LiveSet};

// How many keys a filter learns.
pub const CAPACITY: usize = 2016;

impl BloomFilter {
    // A filter that has learned nothing, over these bytes, which stay as they are until it is sealed.
    pub fn over(bytes: Vec<u8>) -> Self
        ensures { FilterMade bytes.items result }
    {
        BloomFilter {
            bytes,
            intake: Intake::of(CAPACITY),
        }
    }

    // The bytes, handed back.
    pub fn into_bytes(self) -> Vec<u8>
        ensures { result ≡ self.bytes }
    {
        self.bytes
    }
}

impl<K: Key> LiveSet<K> for BloomFilter {
    ghost meaning = { filter_meaning K.Key.bytes };

    fn capacity(&self) -> usize {
        self.intake.capacity()
    }

    fn start(&mut self)
        ensures effect { Started (filter_meaning K.Key.bytes) self.old self.new }
        ensures own { bits_of self.new ≡ bits_of self.old }
    {
        self.intake.start();
    }

    fn learn(&mut self, key: K) -> bool
        ensures effect { Learned (filter_meaning K.Key.bytes) self.old key result self.new }
        ensures own { bits_of self.new ≡ bits_of self.old }
    {
        self.intake.learn()
    }

    fn seal(&mut self)
        ensures effect { Sealed (filter_meaning K.Key.bytes) self.old self.new }
        ensures own { FilterSeal self.old self.new }
    {
        clear_bits(&mut self.bytes);
        self.intake.seal();
    }

    fn mark(&mut self, key: K)
        ensures effect { Noted (filter_meaning K.Key.bytes) self.old key self.new }
        ensures own { FilterMark (K.Key.bytes key) self.old self.new }
    {
        if self.intake.is_sealed() {
            set_bits(&mut self.bytes, key);
        }
    }

    fn says(&self, key: K) -> bool {
        !self.intake.is_sealed() || has_bits(&self.bytes, key)
    }
}
