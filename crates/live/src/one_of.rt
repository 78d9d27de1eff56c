// A live set that is one of two, so that code over one live set serves any mixture.
ghost use Rattle.live.specs.Mixture.{one_of_meaning};

use crate::live_set::LiveSet;
use keys::Key;

#[derive(Drop)]
pub enum OneOf<X, Y> {
    First(X),
    Second(Y),
}

// The matches stay: one function for both arms would have to be generic in the set that it is called with, which no closure is.
impl<K: Key, X: LiveSet<K>, Y: LiveSet<K>> LiveSet<K> for OneOf<X, Y> {
    ghost meaning = { one_of_meaning X.LiveSet.meaning Y.LiveSet.meaning };

    fn capacity(&self) -> usize {
        match self {
            OneOf::First(set) => set.capacity(),
            OneOf::Second(set) => set.capacity(),
        }
    }

    fn start(&mut self) {
        match self {
            OneOf::First(set) => set.start(),
            OneOf::Second(set) => set.start(),
        }
    }

    fn learn(&mut self, key: K) -> bool {
        match self {
            OneOf::First(set) => set.learn(key),
            OneOf::Second(set) => set.learn(key),
        }
    }

    fn seal(&mut self) {
        match self {
            OneOf::First(set) => set.seal(),
            OneOf::Second(set) => set.seal(),
        }
    }

    fn mark(&mut self, key: K) {
        match self {
            OneOf::First(set) => set.mark(key),
            OneOf::Second(set) => set.mark(key),
        }
    }

    fn says(&self, key: K) -> bool {
        match self {
            OneOf::First(set) => set.says(key),
            OneOf::Second(set) => set.says(key),
        }
    }
}
