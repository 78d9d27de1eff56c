// Which containers are free.
ghost use Rattle.std.specs.Prelude.{◌≡◌};
ghost use Rattle.devices.specs.Questions.{is_free};

use crate::device::Device;

// Whether a container is there and has no records.
pub fn is_free<D: Device>(device: &D, container: usize) -> bool
    ensures { result ≡ is_free (D.contents device.now) container }
{
    device.records(container).is_ok_and(|records| records == 0)
}
