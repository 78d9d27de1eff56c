// The tape as a device.
ghost use Rattle.std.specs.Prelude.{◌≡◌};
ghost use Rattle.records.specs.Records.{rec_of};
ghost use Rattle.devices.specs.Changes.{append_answer, append_after};
ghost use Rattle.tape.specs.Meaning.{held_by};
ghost use Rattle.tape.specs.Holding.{held-held};

use crate::sweep::sweep;
use crate::tape::Tape;
use devices::{Device, is_storable, joins};
use keys::Fingerprint;
use records::{Cause, Place, Record, Refusal};

impl<F: Fingerprint> Device for Tape<F> {
    type Kind = F;

    ghost contents = { λ t. held_by F.Key.WIDE t };

    ghost held = { λ t. held-held _ _ _ _ _ _ t.good };

    fn count(&self) -> usize {
        self.seen()
    }

    fn records(&self, container: usize) -> Result<usize, Refusal> {
        self.check(container)?;
        Ok(self.tally(container).records)
    }

    fn payload_bytes(&self, container: usize) -> Result<usize, Refusal> {
        self.check(container)?;
        Ok(self.tally(container).payload)
    }

    fn level(&self, place: Place) -> Result<u8, Refusal> {
        Ok(self.find(place)?.level)
    }

    fn fingerprint(&self, place: Place) -> Result<F, Refusal> {
        Ok(self.find(place)?.fingerprint)
    }

    fn payload_len(&self, place: Place) -> Result<usize, Refusal> {
        Ok(self.find(place)?.payload.len())
    }

    fn payload(&self, place: Place, to: &mut [u8]) -> Result<usize, Refusal> {
        let payload = self.find(place)?.payload;
        let len = payload.len();
        if len > to.len() {
            return Err(Refusal::from(Cause::TooShort));
        }
        to[..len].copy_from_slice(payload);
        Ok(len)
    }

    fn first_place(&self, fingerprint: F) -> Option<Place> {
        (0..self.count()).find_map(|container| self.first_in(container, fingerprint))
    }

    fn append(&mut self, container: usize, added: Record<'_, F>) -> Result<(), Refusal>
        ensures answer { result ≡ append_answer (held_by F.Key.WIDE self.old) container (rec_of F.Key.bytes added.entry) }
        ensures after { held_by F.Key.WIDE self.new ≡ append_after (held_by F.Key.WIDE self.old) container (rec_of F.Key.bytes added.entry) }
    {
        self.check(container)?;
        let len = added.payload.len();
        if !is_storable(added.level, len) {
            return Err(Refusal::from(Cause::Shape));
        }
        let tally = self.tally(container);
        if !joins(tally.records, tally.payload, len) {
            return Err(Refusal::from(Cause::ContainerFull));
        }
        self.push(container, added);
        Ok(())
    }

    fn erase(&mut self, container: usize) -> Result<(), Refusal> {
        self.check(container)?;
        let left = sweep(&mut self.bytes, self.width, self.entries, container);
        self.entries = left.entries;
        self.used = left.used;
        Ok(())
    }
}
