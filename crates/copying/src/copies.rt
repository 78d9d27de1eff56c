// The copy, once for any two devices.
ghost use Rattle.std.specs.Prelude.{◌≡◌, ◌<◌, [], length, replicate, Ok};
ghost use Rattle.std.specs.List.{AllByRecursion};
ghost use Rattle.records.specs.Limits.{Stored};
ghost use Rattle.devices.specs.Questions.{records_of, record_at};
ghost use Rattle.devices.specs.Changes.{append_answer, append_after};
ghost use Rattle.copying.specs.Copies.{MovedOne, MovedAll};

use devices::Device;
use records::{MOST_BYTES, Place, Record, Refusal};

// Appends a record of one device to the same container of another.
fn copy_record<X: Device, Y: Device<Kind = X::Kind>>(
    from: &X,
    to: &mut Y,
    place: Place,
) -> Result<(), Refusal>
    requires { place.index < length (records_of (X.Device.contents from.now) place.container) }
    ensures answer { result ≡ append_answer (Y.Device.contents to.old) place.container (record_at (X.Device.contents from.now) place) }
    ensures after { Y.Device.contents to.new ≡ append_after (Y.Device.contents to.old) place.container (record_at (X.Device.contents from.now) place) }
{
    let level = from.level(place)?;
    let fingerprint = from.fingerprint(place)?;
    let mut buffer = [0; MOST_BYTES];
    let len = from.payload(place, &mut buffer)?;
    let payload = &buffer[..len];
    to.append(
        place.container,
        Record {
            level,
            fingerprint,
            payload,
        },
    )
}

// Appends the records of a container.
fn copy_container<X: Device, Y: Device<Kind = X::Kind>>(
    from: &X,
    to: &mut Y,
    container: usize,
) -> Result<(), Refusal>
    requires { container < length (X.Device.contents from.now) }
    ensures { MovedOne (records_of (X.Device.contents from.now) container) (Y.Device.contents to.old) container result (Y.Device.contents to.new) }
{
    let records = from.records(container)?;
    // `try_for_each` stays open: its closure is not told that the record is there.
    for index in 0..records {
        copy_record(from, to, Place { container, index })?;
    }
    Ok(())
}

// Appends the records of all containers.
fn copy_containers<X: Device, Y: Device<Kind = X::Kind>>(
    from: &X,
    to: &mut Y,
) -> Result<(), Refusal>
    ensures { MovedAll (X.Device.contents from.now) (Y.Device.contents to.old) result (Y.Device.contents to.new) }
{
    // `try_for_each` stays open: its closure is not told that the container is there.
    for container in 0..from.count() {
        copy_container(from, to, container)?;
    }
    Ok(())
}

// Appends every record of one device to the same container of another, in order, up to the first that is refused. None is where as many containers are free and every record may be stored, and then the two hold the same.
pub fn copy_all<X: Device, Y: Device<Kind = X::Kind>>(from: &X, to: &mut Y) -> Result<(), Refusal>
    ensures moved { MovedAll (X.Device.contents from.now) (Y.Device.contents to.old) result (Y.Device.contents to.new) }
    ensures same { AllByRecursion (Stored X.Kind.Key.WIDE) (X.Device.contents from.now) → Y.Device.contents to.old ≡ replicate (length (X.Device.contents from.now)) [] → (result ≡ Ok tt) × (Y.Device.contents to.new ≡ X.Device.contents from.now) }
{
    copy_containers(from, to)
}
