// Where a new record goes.
ghost use Rattle.std.specs.Prelude.{◌≡◌, ℕ, Some};
ghost use Rattle.placing.specs.Placings.{has_space, opening, chosen, Space, Rule};

use crate::filling::Filling;
use crate::free::{free_count, next_free};
use devices::{Device, joins};

// Into the open container, or into a free one that is opened for it.
#[derive(Clone, Copy, Debug, PartialEq, Eq)]
pub enum Choice {
    Stays(usize),
    Opens(usize),
}

// Whether a container is there and takes a record of `len` payload bytes.
fn has_space<D: Device>(device: &D, container: usize, len: usize) -> bool
    ensures { result ≡ has_space (D.Device.contents device.now) container len }
{
    device.records(container).is_ok_and(|records| {
        device
            .payload_bytes(container)
            .is_ok_and(|bytes| joins(records, bytes, len))
    })
}

// The next free container, if more than `spare` are free.
fn open_next<D: Device>(device: &D, last: usize, spare: usize) -> Option<Choice>
    ensures { result ≡ opening (D.Device.contents device.now) last spare }
{
    if free_count(device) <= spare {
        return None;
    }
    next_free(device, last).map(Choice::Opens)
}

// Where a record of `len` payload bytes goes, if anywhere: into the open container if that takes it, else into the next free one behind the one that was opened last, if more than `spare` are free.
pub fn choose<D: Device>(device: &D, filling: Filling, spare: usize, len: usize) -> Option<Choice>
    ensures answer { result ≡ chosen (D.Device.contents device.now) filling spare len }
    ensures rule { Rule (D.Device.contents device.now) filling spare len result }
    ensures stays { (c : ℕ) → filling.current ≡ Some c → Space (D.Device.contents device.now) c len → result ≡ Some (Choice.Stays c) }
{
    filling
        .current
        .filter(|container| has_space(device, *container, len))
        .map(Choice::Stays)
        .or_else(|| open_next(device, filling.last, spare))
}
