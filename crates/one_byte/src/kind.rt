// The one byte as a key, and as the fingerprint that is the low byte of FNV-1a of the level and the payload.
ghost use Rattle.one_byte.specs.Low.{low_bytes, low_of, low_naming};
ghost use Rattle.one_byte.specs.Lows.{low_value};
ghost use Rattle.std.specs.Prelude.{[], ◌∷◌};
ghost use Rattle.std.proofs.Common.{mod-eq_of_lt, arith, rules};

use crate::byte::OneByte;
use keys::hash::hash_behind;
use keys::{Fingerprint, Key};

impl Key for OneByte {
    const WIDE: usize = 1;

    ghost WIDE = { 1 };

    ghost bytes = { low_bytes };

    ghost key = { low_of };

    ghost narrow = { Prim.search rules };

    ghost long = { Prim.search rules };

    ghost octets = { Prim.search rules };

    ghost back = { λ k. low_value k };

    ghost any = { elim [
      | [] ↦ λ e h. absurd (omega arith)
      | x ∷ [] ↦ λ e h. rw (mod-eq_of_lt h.0)
      | x ∷ y ∷ zs ↦ λ e h. absurd (omega arith)
    ] };

    ghost same = { Prim.search rules };

    fn read(from: &[u8]) -> Option<OneByte> {
        match from {
            [value, ..] => Some(OneByte { value: *value }),
            _ => None,
        }
    }

    fn write(self, to: &mut [u8]) -> bool {
        if to.len() < Self::WIDE {
            return false;
        }
        to[0] = self.value;
        true
    }
}

impl Fingerprint for OneByte {
    ghost naming = { low_naming };

    ghost some = { Prim.search rules };

    fn of(level: u8, payload: &[u8]) -> OneByte {
        OneByte {
            value: (hash_behind(level, payload) % 256) as u8,
        }
    }
}
