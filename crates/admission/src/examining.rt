// Examining all records of a device, and the device as a whole.
ghost use Rattle.std.specs.Prelude.{◌≡◌, ◌<◌, length, Ok, Option};
ghost use Rattle.records.specs.Records.{Rec};
ghost use Rattle.records.specs.declared.refusal.Cause.{Cause};
ghost use Rattle.records.specs.declared.refusal.Place.{Place};
ghost use Rattle.devices.specs.Questions.{records_of};
ghost use Rattle.admission.specs.Admission.{Judges, refused_among, refused_from, answer_by, some_free, admission_answer, Admitted};

use crate::causes::{fault_at, repeat_at};
use devices::{Device, is_free};
use records::{Cause, Place, Refusal};

// Refuses the first record of a container that the test finds wrong.
fn examine_container<D, F>(device: &D, container: usize, test: &F) -> Result<(), Refusal>
where
    D: Device,
    F: Fn(Place) -> Result<Option<Cause>, Refusal>,
    requires callable { F.IsAlwaysCallable test.now }
    requires here { container < length (D.Device.contents device.now) }
    ensures { (judge : Place → Rec → Option Cause) → Judges judge (D.Device.contents device.now) (F.post test.now) → result ≡ answer_by (refused_among judge container 0 (records_of (D.Device.contents device.now) container)) }
{
    let count = device.records(container)?;
    // By number: a device is asked by place, and the first refusal ends it.
    for index in 0..count {
        let place = Place { container, index };
        if let Some(cause) = test(place)? {
            return Err(Refusal::at(cause, place));
        }
    }
    Ok(())
}

// Refuses the first record of all that the test finds wrong.
fn examine_records<D, F>(device: &D, test: F) -> Result<(), Refusal>
where
    D: Device,
    F: Fn(Place) -> Result<Option<Cause>, Refusal>,
    requires { F.IsAlwaysCallable test }
    ensures { (judge : Place → Rec → Option Cause) → Judges judge (D.Device.contents device.now) (F.post test) → result ≡ answer_by (refused_from judge 0 (D.Device.contents device.now)) }
{
    // `try_for_each` would put a closure round the closure.
    for container in 0..device.count() {
        examine_container(device, container, &test)?;
    }
    Ok(())
}

// Whether some container has no records.
fn has_free<D: Device>(device: &D) -> bool
    ensures { result ≡ some_free (D.Device.contents device.now) }
{
    (0..device.count()).any(|container| is_free(device, container))
}

// Refuses a device that a store may not admit: by its number of containers, then by the first record that is wrong by itself, then by the first whose fingerprint an earlier one has, then for want of a free container.
pub fn examine_device<D: Device>(device: &D) -> Result<(), Refusal>
    ensures answer { result ≡ admission_answer D.Kind.Key.WIDE (λ l p. D.Kind.Key.bytes (D.Kind.Fingerprint.naming l p)) (D.Device.contents device.now) }
    ensures sound { result ≡ Ok tt → Admitted D.Kind.Key.WIDE (λ l p. D.Kind.Key.bytes (D.Kind.Fingerprint.naming l p)) (D.Device.contents device.now) }
{
    if !(2..=32).contains(&device.count()) {
        return Err(Refusal::from(Cause::Size));
    }
    examine_records(device, |place| fault_at(device, place))?;
    examine_records(device, |place| repeat_at(device, place))?;
    if !has_free(device) {
        return Err(Refusal::from(Cause::NoneFree));
    }
    Ok(())
}
