// How long a tape is, and an empty tape over given bytes.
ghost use Rattle.std.specs.Prelude.{◌≡◌, ◌&&◌, [], replicate, is_ok, if◌then◌else◌, Some, None, vec_len, MatchResult, ◌==◌};
ghost use Rattle.records.specs.Refusals.{untold};
ghost use Rattle.records.specs.declared.refusal.Cause.TheVariants.{Size};
ghost use Rattle.tape.specs.Meaning.{held_by};
ghost use Rattle.tape.specs.Sizes.{countable, tape_size};

use crate::tape::Tape;
use keys::Fingerprint;
use records::{Cause, Refusal};
use std::marker::PhantomData;

// The length of a tape of n containers; there are 2 to 32.
pub fn tape_size<F: Fingerprint>(n: usize) -> Option<usize>
    ensures { result ≡ (if countable n then Some (tape_size F.Key.WIDE n) else None) }
{
    if !(2..=32).contains(&n) {
        return None;
    }
    Some(16 + n * (63 * (F::WIDE + 4) + 7168))
}

impl<F: Fingerprint> Tape<F> {
    // An empty tape of n containers over bytes of exactly its length; other bytes come back as they are.
    pub fn lay_out(bytes: Vec<u8>, n: usize) -> Result<Tape<F>, (Refusal, Vec<u8>)>
        ensures answer { is_ok result ≡ (countable n && vec_len bytes == tape_size F.Key.WIDE n) }
        ensures empty { MatchResult result (λ t. held_by F.Key.WIDE t ≡ replicate n []) (λ refused. refused ≡ (untold Size, bytes)) }
    {
        if tape_size::<F>(n) != Some(bytes.len()) {
            return Err((Refusal::from(Cause::Size), bytes));
        }
        Ok(Tape {
            bytes,
            width: F::WIDE,
            containers: n,
            entries: 0,
            used: 0,
            kind: PhantomData,
        })
    }
}
