// The container file's answers as a device. A refused change writes no byte.
ghost use Rattle.std.specs.Prelude.{◌≡◌, false, is_ok};
ghost use Rattle.records.specs.Records.{rec_of};
ghost use Rattle.devices.specs.Changes.{append_answer, append_after, erase_answer, erased};
ghost use Rattle.container_file.specs.Meaning.{contents_of};
ghost use Rattle.container_file.specs.Held.{held-file};

use crate::changes::copy;
use crate::file::ContainerFile;
use devices::{Device, is_storable, joins};
use keys::Fingerprint;
use records::{Cause, Place, Record, Refusal};

impl<F: Fingerprint> Device for ContainerFile<F> {
    type Kind = F;

    ghost contents = { λ s. contents_of F.Key.WIDE s };

    ghost held = { λ d. held-file F.Key.WIDE d };

    fn count(&self) -> usize {
        self.containers()
    }

    fn records(&self, container: usize) -> Result<usize, Refusal> {
        let header = self.header(container).ok_or(Cause::NoSuchPlace)?;
        Ok(header.records)
    }

    fn payload_bytes(&self, container: usize) -> Result<usize, Refusal> {
        let header = self.header(container).ok_or(Cause::NoSuchPlace)?;
        Ok(header.used)
    }

    fn level(&self, place: Place) -> Result<u8, Refusal> {
        let at = self.entry(place).ok_or(Cause::NoSuchPlace)?;
        Ok(self.bytes[at + F::WIDE])
    }

    fn fingerprint(&self, place: Place) -> Result<F, Refusal> {
        self.fingerprint_at(place)
            .ok_or(Refusal::from(Cause::NoSuchPlace))
    }

    fn payload_len(&self, place: Place) -> Result<usize, Refusal> {
        let span = self.span(place).ok_or(Cause::NoSuchPlace)?;
        Ok(span.len())
    }

    fn payload(&self, place: Place, to: &mut [u8]) -> Result<usize, Refusal> {
        let part = self.part(place)?;
        let len = part.len();
        if to.len() < len {
            return Err(Refusal::from(Cause::TooShort));
        }
        copy(&mut to[..len], part);
        Ok(len)
    }

    fn first_place(&self, fingerprint: F) -> Option<Place> {
        self.first_of(fingerprint)
    }

    fn append(&mut self, container: usize, added: Record<'_, F>) -> Result<(), Refusal>
        ensures answer { result ≡ append_answer (contents_of F.Key.WIDE self.old) container (rec_of F.Key.bytes added.entry) }
        ensures after { contents_of F.Key.WIDE self.new ≡ append_after (contents_of F.Key.WIDE self.old) container (rec_of F.Key.bytes added.entry) }
        ensures untouched { is_ok result ≡ false → self.new.bytes ≡ self.old.bytes }
    {
        let header = self.header(container).ok_or(Cause::NoSuchPlace)?;
        let len = added.payload.len();
        if !is_storable(added.level, len) {
            return Err(Refusal::from(Cause::Shape));
        }
        if !joins(header.records, header.used, len) {
            return Err(Refusal::from(Cause::ContainerFull));
        }
        self.write_record(header, added);
        Ok(())
    }

    fn erase(&mut self, container: usize) -> Result<(), Refusal>
        ensures answer { result ≡ erase_answer (contents_of F.Key.WIDE self.old) container }
        ensures after { contents_of F.Key.WIDE self.new ≡ erased (contents_of F.Key.WIDE self.old) container }
        ensures untouched { is_ok result ≡ false → self.new.bytes ≡ self.old.bytes }
    {
        let header = self.header(container).ok_or(Cause::NoSuchPlace)?;
        self.clear_container(header);
        Ok(())
    }
}
