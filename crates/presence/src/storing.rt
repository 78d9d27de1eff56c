// Looking for a record.
ghost use Rattle.std.specs.Prelude.{◌≡◌, ◌&&◌, if◌then◌else◌, None, Some, nat_eq};
ghost use Rattle.keys.specs.Octets.{same_bytes};
ghost use Rattle.records.specs.Records.{rec_of};
ghost use Rattle.trees.specs.Holding.{if_some, standing};
ghost use Rattle.presence.specs.Presences.{presence_of};
ghost use Rattle.presence.specs.declared.present.Presence.TheVariants.{Same, Other};

use crate::present::Presence;
use devices::Device;
use octets::same_bytes;
use records::{MOST_BYTES, Place, Record};

// What a stored level and stored bytes say of these.
fn compared(stored: u8, held: &[u8], level: u8, payload: &[u8]) -> Presence
    ensures { result ≡ (if nat_eq stored level && same_bytes held.now payload.now then Same else Other) }
{
    if stored == level && same_bytes(held, payload) {
        Presence::Same
    } else {
        Presence::Other
    }
}

// What the record at a place says of this level and these bytes, if there is one.
fn present_at<D: Device>(device: &D, place: Place, level: u8, payload: &[u8]) -> Option<Presence>
    ensures { result ≡ if_some None (λ x. Some (if nat_eq x.level level && same_bytes x.payload payload.now then Same else Other)) (standing (D.contents device.now) place) }
{
    let stored = device.level(place).ok()?;
    let mut buffer = [0; MOST_BYTES];
    let long = device.payload(place, &mut buffer).ok()?;
    Some(compared(stored, &buffer[..long], level, payload))
}

// What is stored of a record.
pub fn presence_of<D: Device>(device: &D, wanted: Record<'_, D::Kind>) -> Presence
    ensures { result ≡ presence_of (D.contents device.now) (rec_of D.Kind.Key.bytes wanted.entry) }
{
    let Record {
        level,
        fingerprint,
        payload,
    } = wanted;
    device
        .first_place(fingerprint)
        .and_then(|place| present_at(device, place, level, payload))
        .unwrap_or(Presence::Absent)
}
