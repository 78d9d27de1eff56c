// Free containers: how many there are, and which is next.
ghost use Rattle.std.specs.Prelude.{◌≡◌};
ghost use Rattle.placing.specs.Openings.{free_count, free_in, behind, next_free};

use devices::{Device, is_free};

// How many containers are free.
pub fn free_count<D: Device>(device: &D) -> usize
    ensures { result ≡ free_count (D.Device.contents device.now) }
{
    (0..device.count())
        .filter(|container| is_free(device, *container))
        .count()
}

// The first free container from `from` to before `to`, if any.
fn free_in<D: Device>(device: &D, from: usize, to: usize) -> Option<usize>
    ensures { result ≡ free_in (D.Device.contents device.now) from to }
{
    (from..to).find(|container| is_free(device, *container))
}

// Where the way round begins: behind `last`, or at the first container where `last` is none of the `count`.
fn way_start(last: usize, count: usize) -> usize
    ensures { result ≡ behind last count }
{
    if last < count { last + 1 } else { 0 }
}

// The next free container on the way round from behind `last`, if any.
pub(crate) fn next_free<D: Device>(device: &D, last: usize) -> Option<usize>
    ensures { result ≡ next_free (D.Device.contents device.now) last }
{
    let count = device.count();
    let start = way_start(last, count);
    free_in(device, start, count).or_else(|| free_in(device, 0, start))
}
