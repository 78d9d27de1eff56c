// What is wrong with one record.
ghost use Rattle.std.specs.Prelude.{◌≡◌};
ghost use Rattle.records.specs.Records.{rec_of};
ghost use Rattle.devices.specs.Questions.{of_record};
ghost use Rattle.admission.specs.Causes.{fault_of, repeat_of};

use devices::Device;
use keys::{Fingerprint, is_named};
use records::{Cause, MOST_BYTES, Place, Record, Refusal, is_shaped};

// What is wrong with a record by itself.
fn fault<F: Fingerprint>(found: Record<'_, F>) -> Option<Cause>
    ensures { result ≡ fault_of F.Key.WIDE (λ l p. F.Key.bytes (F.Fingerprint.naming l p)) (rec_of F.Key.bytes found.entry) }
{
    if !is_shaped::<F>(found.level, found.payload) {
        Some(Cause::Shape)
    } else if !is_named(found.fingerprint, found.level, found.payload) {
        Some(Cause::WrongFingerprint)
    } else {
        None
    }
}

// What is wrong with the record at a place by itself.
pub(crate) fn fault_at<D: Device>(device: &D, place: Place) -> Result<Option<Cause>, Refusal>
    ensures { result ≡ of_record (fault_of D.Kind.Key.WIDE (λ l p. D.Kind.Key.bytes (D.Kind.Fingerprint.naming l p))) (D.Device.contents device.now) place }
{
    let level = device.level(place)?;
    let fingerprint = device.fingerprint(place)?;
    let mut buffer = [0; MOST_BYTES];
    let len = device.payload(place, &mut buffer)?;
    Ok(fault(Record {
        level,
        fingerprint,
        payload: &buffer[..len],
    }))
}

// What is wrong with the record at a place if an earlier one has its fingerprint.
pub(crate) fn repeat_at<D: Device>(device: &D, place: Place) -> Result<Option<Cause>, Refusal>
    ensures { result ≡ of_record (repeat_of (D.Device.contents device.now) place) (D.Device.contents device.now) place }
{
    let fingerprint = device.fingerprint(place)?;
    let repeated = device
        .first_place(fingerprint)
        .is_some_and(|first| first < place);
    Ok(repeated.then_some(Cause::RepeatedFingerprint))
}
