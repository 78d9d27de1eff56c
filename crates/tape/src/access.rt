// The parts of a tape that its answers are made of.
ghost use Rattle.std.specs.Prelude.{◌≡◌, ◌+◌, ℕ, ◌^◌, ◌<◌, ◌≤◌, length, None, Ok, Err, if◌then◌else◌, nat_lt, MatchResult};
ghost use Rattle.records.specs.Records.{payload_bytes, place_among, rec_of};
ghost use Rattle.records.specs.declared.refusal.Cause.TheVariants.{NoSuchPlace};
ghost use Rattle.devices.specs.Changes.{appended};
ghost use Rattle.devices.specs.Questions.{records_of, record_at};
ghost use Rattle.tape.specs.Log.{log_of, records_in};
ghost use Rattle.tape.specs.Meaning.{held_by};

use crate::entry::Tally;
use crate::log::Log;
use crate::raw::add_entry;
use crate::tape::Tape;
use keys::Fingerprint;
use records::{Cause, Place, Record};
use std::marker::PhantomData;

impl<F: Fingerprint> Tape<F> {
    // How many containers there are for this kind of fingerprint, as `containers` of a container file has it.
    pub(crate) fn seen(&self) -> usize
        ensures { result ≡ length (held_by F.Key.WIDE self.now) }
    {
        if self.width == F::WIDE {
            self.containers
        } else {
            0
        }
    }

    // Refuses a container that is not there.
    pub(crate) fn check(&self, container: usize) -> Result<(), Cause>
        ensures { result ≡ (if nat_lt container (length (held_by F.Key.WIDE self.now)) then Ok tt else Err NoSuchPlace) }
    {
        if container < self.seen() {
            Ok(())
        } else {
            Err(Cause::NoSuchPlace)
        }
    }

    // The log, of which this kind of fingerprint sees all or nothing.
    pub(crate) fn log(&self) -> Log<'_, F>
        ensures few { result.entries < 2 ^ 64 }
        ensures records { (c : ℕ) → records_in c (log_of F.Key.WIDE result.entries result.bytes.now) ≡ records_of (held_by F.Key.WIDE self.now) c }
    {
        let entries = if self.width == F::WIDE {
            self.entries
        } else {
            0
        };
        Log {
            bytes: &self.bytes,
            entries,
            kind: PhantomData,
        }
    }

    // Counts the records of a container, and their payload bytes.
    pub(crate) fn tally(&self, container: usize) -> Tally
        ensures records { result.records ≡ length (records_of (held_by F.Key.WIDE self.now) container) }
        ensures payload { result.payload ≡ payload_bytes (records_of (held_by F.Key.WIDE self.now) container) }
    {
        // Two sums in one pass; a chain's `sum` leaves its bound open.
        let mut records = 0;
        let mut payload = 0;
        for entry in self.log() {
            if entry.container == container {
                records += 1;
                payload += entry.stored.payload.len();
            }
        }
        Tally { records, payload }
    }

    // The record of a place.
    pub(crate) fn find(&self, place: Place) -> Result<Record<'_, F>, Cause>
        ensures { MatchResult result (λ r. (place.index < length (records_of (held_by F.Key.WIDE self.now) place.container)) × (rec_of F.Key.bytes r ≡ record_at (held_by F.Key.WIDE self.now) place)) (λ cause. (cause ≡ NoSuchPlace) × (length (records_of (held_by F.Key.WIDE self.now) place.container) ≤ place.index)) }
    {
        self.log()
            .filter(|entry| entry.container == place.container)
            .nth(place.index)
            .map(|entry| entry.stored)
            .ok_or(Cause::NoSuchPlace)
    }

    // The first place of a fingerprint in one container, if any.
    pub(crate) fn first_in(&self, container: usize, fingerprint: F) -> Option<Place>
        ensures { result ≡ place_among (F.Key.bytes fingerprint) container 0 (records_of (held_by F.Key.WIDE self.now) container) None }
    {
        self.log()
            .filter(|entry| entry.container == container)
            .position(|entry| entry.stored.fingerprint == fingerprint)
            .map(|index| Place { container, index })
    }

    // Adds an entry behind the others; the tape has space for whatever its container takes.
    pub(crate) fn push(&mut self, container: usize, added: Record<'_, F>)
        requires here { container < length (held_by F.Key.WIDE self.old) }
        requires short { length added.payload.now ≤ 1280 }
        requires one { length (records_of (held_by F.Key.WIDE self.old) container) < 63 }
        requires all { payload_bytes (records_of (held_by F.Key.WIDE self.old) container) + length added.payload.now ≤ 7168 }
        ensures { held_by F.Key.WIDE self.new ≡ appended (held_by F.Key.WIDE self.old) container (rec_of F.Key.bytes added.entry) }
    {
        let used = self.used;
        let len = added.payload.len();
        add_entry(&mut self.bytes, used, container as u8, added);
        self.entries += 1;
        self.used = used + (F::WIDE + 4 + len);
    }
}
