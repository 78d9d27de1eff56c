// What a live set promises.
ghost use Rattle.std.specs.Prelude.{◌≡◌};
ghost use Rattle.live.specs.Meaning.{Meaning, Started, Learned, Sealed, Noted};

use keys::Key;

// A set that learns keys, is sealed, and then says of each key whether it may have been marked.
pub trait LiveSet<K: Key> {
    // The count, the capacity, whether it is sealed, which keys it covers and which it says yes to.
    ghost meaning: { Meaning Self K };

    // How many keys it can learn; no call changes that.
    fn capacity(&self) -> usize
        ensures effect { result ≡ meaning.capacity self.now };

    // Begins anew: no key is counted, and it is not sealed.
    fn start(&mut self)
        ensures effect { Started meaning self.old self.new };

    // Covers the key too; refused when it is sealed or has learned as many keys as it can. A bool, as the insert of a set
    // answers: there is one refusal, with nothing to tell of it.
    fn learn(&mut self, key: K) -> bool
        ensures effect { Learned meaning self.old key result self.new };

    // Ends learning, so that it can be marked.
    fn seal(&mut self)
        ensures effect { Sealed meaning self.old self.new };

    // Says yes to the key from now on, if it covers it; before it is sealed nothing changes.
    fn mark(&mut self, key: K)
        ensures effect { Noted meaning self.old key self.new };

    // Yes or no; before it is sealed yes to every key.
    fn says(&self, key: K) -> bool
        ensures effect { result ≡ meaning.says self.now key };
}
