// The interface of a device.
ghost use Rattle.std.specs.Prelude.{◌≡◌, length};
ghost use Rattle.records.specs.Records.{Contents, first_place, payload_bytes, rec_of};
ghost use Rattle.devices.specs.Questions.{Held, of_container, of_record, payload_answer, payload_filled};
ghost use Rattle.devices.specs.Changes.{append_answer, append_after, erase_answer, erased};

use keys::Fingerprint;
use records::{Place, Record, Refusal};

// Containers of records, whose fingerprints are of one kind.
pub trait Device {
    type Kind: Fingerprint;

    // For each container the list of its records.
    ghost contents: { Self → Contents };

    // How many containers there are.
    fn count(&self) -> usize
        ensures { result ≡ length (contents self.now) };

    // How many records a container has.
    fn records(&self, container: usize) -> Result<usize, Refusal>
        ensures { result ≡ of_container length (contents self.now) container };

    // How many payload bytes they have.
    fn payload_bytes(&self, container: usize) -> Result<usize, Refusal>
        ensures { result ≡ of_container payload_bytes (contents self.now) container };

    fn level(&self, place: Place) -> Result<u8, Refusal>
        ensures { result ≡ of_record (λ x. x.level) (contents self.now) place };

    fn fingerprint(&self, place: Place) -> Result<Self::Kind, Refusal>
        ensures { result ≡ of_record (λ x. Self.Kind.Key.key x.fingerprint) (contents self.now) place };

    // How long a record's payload is.
    fn payload_len(&self, place: Place) -> Result<usize, Refusal>
        ensures { result ≡ of_record (λ x. length x.payload) (contents self.now) place };

    // A record's payload into the front of `to`, and its length.
    fn payload(&self, place: Place, to: &mut [u8]) -> Result<usize, Refusal>
        ensures answer { result ≡ payload_answer (contents self.now) place (length to.old) }
        ensures buffer { to.new ≡ payload_filled (contents self.now) place to.old };

    // The first place of a fingerprint in rising container and record order, if any.
    fn first_place(&self, fingerprint: Self::Kind) -> Option<Place>
        ensures { result ≡ first_place (contents self.now) (Self.Kind.Key.bytes fingerprint) };

    // One record more behind those of a container.
    fn append(&mut self, container: usize, added: Record<'_, Self::Kind>) -> Result<(), Refusal>
        ensures answer { result ≡ append_answer (contents self.old) container (rec_of Self.Kind.Key.bytes added.entry) }
        ensures after { contents self.new ≡ append_after (contents self.old) container (rec_of Self.Kind.Key.bytes added.entry) };

    // Empties a container.
    fn erase(&mut self, container: usize) -> Result<(), Refusal>
        ensures answer { result ≡ erase_answer (contents self.old) container }
        ensures after { contents self.new ≡ erased (contents self.old) container };

    // No container is ever over its limits.
    ghost held: { (d : Self) → Held Self.Kind.Key.WIDE (contents d) };
}
