// What a table of slots and a live set ask of a key.
ghost use Rattle.std.specs.Prelude.{◌≡◌, ℕ, ◌≤◌, leb, List, [], ◌∷◌, ◌++◌, length, take, drop, if◌then◌else◌, Some, None, nat_le};
ghost use Rattle.keys.specs.Octets.{Bytes, same_bytes};

// A name of `WIDE` bytes, which give it back.
pub trait Key: Copy + Eq {
    // How many bytes a key of this kind has.
    const WIDE: usize;

    // The same number, for contracts.
    ghost WIDE: { ℕ };

    // A key's bytes.
    ghost bytes: { Self → List ℕ };

    // The key that has these bytes.
    ghost key: { List ℕ → Self };

    // The key off the front of some bytes, if there are enough.
    fn read(from: &[u8]) -> Option<Self>
        ensures { result ≡ (if leb WIDE (length from.now) then Some (key (take WIDE from.now)) else None) };

    // Writes the key's bytes to the front of `to` if they fit, and tells whether they do. A bool: a buffer that is too short is
    // no error here, and a caller whose buffer fits has nothing to handle.
    fn write(self, to: &mut [u8]) -> bool
        ensures fits { result ≡ nat_le WIDE (length to.old) }
        ensures after { to.new ≡ (if result then bytes self ++ drop WIDE to.old else to.old) };

    // No key is wider than 20 bytes.
    ghost narrow: { WIDE ≤ 20 };

    // A key has `WIDE` bytes ..
    ghost long: { (k : Self) → length (bytes k) ≡ WIDE };

    // .. and bytes they are.
    ghost octets: { (k : Self) → Bytes (bytes k) };

    // The bytes give the key back, so equal bytes are equal keys.
    ghost back: { (k : Self) → key (bytes k) ≡ k };

    // Any `WIDE` bytes are a key's.
    ghost any: { (bs : List ℕ) → length bs ≡ WIDE → Bytes bs → bytes (key bs) ≡ bs };

    // Two keys are the same exactly when their bytes are.
    ghost same: { (a : Self) → (b : Self) → Self.PartialEq.eq a b ≡ same_bytes (bytes a) (bytes b) };
}
