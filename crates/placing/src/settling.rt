// Putting a record where it goes.
ghost use Rattle.std.specs.Prelude.{◌≡◌};
ghost use Rattle.records.specs.Records.{rec_of};
ghost use Rattle.placing.specs.Settling.{choice_for, settled_in, turned_to};

use crate::choosing::{Choice, choose};
use crate::filling::Filling;
use devices::{Device, is_storable};
use records::Record;

// Appends a record where it goes, and tells where; a container that is opened for it is being filled from then on.
pub fn store_record<D: Device>(
    device: &mut D,
    filling: &mut Filling,
    spare: usize,
    added: Record<'_, D::Kind>,
) -> Option<Choice>
    ensures answer { result ≡ choice_for (D.Device.contents device.old) filling.old spare (rec_of D.Kind.Key.bytes added.entry) }
    ensures device { D.Device.contents device.new ≡ settled_in (D.Device.contents device.old) result (rec_of D.Kind.Key.bytes added.entry) }
    ensures filling { filling.new ≡ turned_to filling.old result }
{
    let len = added.payload.len();
    if !is_storable(added.level, len) {
        return None;
    }
    let choice = choose(device, *filling, spare, len)?;
    let (Choice::Stays(container) | Choice::Opens(container)) = choice;
    // The container was chosen to take it, so it is not refused.
    let _ = device.append(container, added);
    if let Choice::Opens(container) = choice {
        *filling = Filling {
            current: Some(container),
            last: container,
        };
    }
    Some(choice)
}
