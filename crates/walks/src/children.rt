// The children that a record lists.
ghost use Rattle.std.specs.Prelude.{◌≡◌, ◌≤◌, length};
ghost use Rattle.std.specs.List.{slice_get};
ghost use Rattle.trees.specs.Holding.{standing};
ghost use Rattle.trees.specs.Trees.{cut, payload_of};
ghost use Rattle.walks.specs.Descents.{as_key};

use devices::Device;
use keys::{Fingerprint, Key};
use records::{MOST_BYTES, Place};

// The payload of the record at a place, copied into a buffer; no bytes where there is no such record.
pub(crate) fn payload_at<'b, D: Device>(
    device: &D,
    place: Place,
    buffer: &'b mut [u8; MOST_BYTES],
) -> &'b [u8]
    ensures { result.now ≡ payload_of (standing (D.contents device.now) place) }
{
    let long = device.payload(place, buffer).unwrap_or(0);
    &buffer[..long]
}

// The fingerprint at an index of a payload, if the payload has so many.
pub(crate) fn piece_at<F: Fingerprint>(payload: &[u8], index: usize) -> Option<F>
    ensures { result ≡ as_key F.Key.key (slice_get (cut F.Key.WIDE payload.now) index) }
{
    let start = index.checked_mul(F::WIDE)?;
    F::read(payload.get(start..)?)
}

// The child at an index of the record at a place, if there is one.
pub(crate) fn child_at<D: Device>(device: &D, place: Place, index: usize) -> Option<D::Kind>
    ensures { result ≡ as_key D.Kind.Key.key (slice_get (cut D.Kind.Key.WIDE (payload_of (standing (D.contents device.now) place))) index) }
{
    let mut buffer = [0; MOST_BYTES];
    piece_at(payload_at(device, place, &mut buffer), index)
}

// How many children the record at a place has.
pub(crate) fn child_count<D: Device>(device: &D, place: Place) -> usize
    ensures is { result ≡ length (cut D.Kind.Key.WIDE (payload_of (standing (D.contents device.now) place))) }
    ensures few { result ≤ 7168 }
{
    device.payload_len(place).unwrap_or(0) / D::Kind::WIDE
}
