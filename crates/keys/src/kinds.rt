// The two kinds of key, and the home number that every key has.
ghost use Rattle.std.specs.Prelude.{◌≡◌, ◌%◌, ◌^◌, ◌<◌, [], ◌∷◌};
ghost use Rattle.std.proofs.Common.{ap, ◌∙◌, mod-eq_of_lt, arith, rules};
ghost use Rattle.keys.specs.Octets.{same_bytes, little};
ghost use Rattle.keys.specs.Hashing.{fnv1a};
ghost use Rattle.keys.specs.Encodings.{home_number, pair_bytes, pair_of, fnv_bytes, fnv_of, fnv_numbered, fnv_naming};
ghost use Rattle.keys.specs.Reading.{pair_path, fnv_path};
ghost use Rattle.keys.specs.Little.{number-little, little-number, number_below, same-little};
ghost use Rattle.keys.specs.Octets;

use crate::fingerprint::Fingerprint;
use crate::fnv::Fnv;
use crate::hash::hash_behind;
use crate::key::Key;
use crate::pair::Pair;

// The hash of a byte and then a key's bytes.
fn hash_key<K: Key>(first: u8, key: K) -> u64
    ensures { result ≡ fnv1a (first ∷ K.Key.bytes key) }
{
    // No key is wider, and nothing here allocates.
    let mut buffer = [0u8; 20];
    let _ = key.write(&mut buffer);
    hash_behind(first, &buffer[..K::WIDE])
}

// The key's home number under a seed: where a table begins to look for it, and which bits of a filter it has.
pub fn home<K: Key>(key: K, seed: u8) -> u64
    ensures { result ≡ home_number seed (K.Key.bytes key) }
{
    hash_key(seed, key)
}

// Whether a fingerprint is the one of a level and a payload.
pub fn is_named<F: Fingerprint>(fingerprint: F, level: u8, payload: &[u8]) -> bool
    ensures { result ≡ same_bytes (F.Key.bytes fingerprint) (F.Key.bytes (F.Fingerprint.naming level payload.now)) }
{
    fingerprint == F::of(level, payload)
}

impl Key for Pair {
    const WIDE: usize = 2;

    ghost WIDE = { 2 };

    ghost bytes = { pair_bytes };

    ghost key = { pair_of };

    ghost narrow = { Prim.search rules };

    ghost long = { Prim.search rules };

    ghost octets = { Prim.search rules };

    ghost back = { λ k. pair_path _ _ (mod-eq_of_lt k.fits.0) (mod-eq_of_lt k.fits.1) };

    ghost any = { elim [
      | [] ↦ λ e h. absurd (omega arith)
      | x ∷ [] ↦ λ e h. absurd (omega arith)
      | x ∷ y ∷ [] ↦ λ e h. rw (mod-eq_of_lt h.0, mod-eq_of_lt h.1.0)
      | x ∷ y ∷ z ∷ zs ↦ λ e h. absurd (omega arith)
    ] };

    ghost same = { Prim.search rules };

    fn read(from: &[u8]) -> Option<Pair> {
        let [level, container, ..] = from else {
            return None;
        };
        Some(Pair {
            level: *level,
            container: *container,
        })
    }

    fn write(self, to: &mut [u8]) -> bool {
        if to.len() < Self::WIDE {
            return false;
        }
        to[0] = self.level;
        to[1] = self.container;
        true
    }
}

// The fingerprint of a number.
impl From<u64> for Fnv {
    ghost from_gives = { λ number result. result ≡ fnv_numbered number };

    fn from(number: u64) -> Fnv {
        Fnv { number }
    }
}

impl Key for Fnv {
    const WIDE: usize = 8;

    ghost WIDE = { 8 };

    ghost bytes = { fnv_bytes };

    ghost key = { fnv_of };

    ghost narrow = { Prim.search rules };

    ghost long = { Prim.search rules };

    ghost octets = { Prim.search rules };

    ghost back = { λ k. fnv_path _ _ (ap (λ n. n % 2 ^ 64) (number-little 8 k.number k.fits) ∙ mod-eq_of_lt k.fits) };

    ghost any = { λ bs e h.
        let b : Octets.number bs < 2 ^ 64 = rw e at (number_below bs h) in
        let o : little 8 (Octets.number bs) ≡ bs = rw e at (little-number bs h) in
        ap (little 8) (mod-eq_of_lt b) ∙ o };

    ghost same = { λ a b. same-little 8 a.number b.number a.fits b.fits };

    fn read(from: &[u8]) -> Option<Fnv> {
        // By a slice pattern, eight bytes and the rest: `first_chunk` leaves the proof open.
        match from {
            [a, b, c, d, e, f, g, h, ..] => {
                let number = u64::from_le_bytes([*a, *b, *c, *d, *e, *f, *g, *h]);
                Some(Fnv { number })
            }
            _ => None,
        }
    }

    fn write(self, to: &mut [u8]) -> bool {
        if to.len() < Self::WIDE {
            return false;
        }
        let bytes = self.number.to_le_bytes();
        (&mut to[0..8]).copy_from_slice(&bytes);
        true
    }
}

impl Fingerprint for Fnv {
    ghost naming = { fnv_naming };

    ghost some = { Prim.search rules };

    fn of(level: u8, payload: &[u8]) -> Fnv {
        Fnv::from(hash_behind(level, payload))
    }
}
