// Sizes that follow from the width of a fingerprint.
ghost use Rattle.std.specs.Prelude.{◌≡◌, ◌+◌, T};
ghost use Rattle.container_format.specs.Checking.{Count};
ghost use Rattle.container_format.specs.Layout.{body_at, container_size};

use keys::{Fingerprint, Key};

// The bytes of a container's header.
pub const HEADER: usize = 16;

// How many entries a container has, full or free: the layout's own number, whatever a container may hold.
pub const RECORDS: usize = 63;

// The bytes of a container's body, which has the payloads: the layout's own number too.
pub const BODY: usize = 7168;

// How many bytes an entry takes.
pub fn entry_size<F: Key>() -> usize
    ensures { result ≡ F.WIDE + 8 }
{
    F::WIDE + 8
}

// Where a container's body begins.
pub fn body_at<F: Key>() -> usize
    ensures { result ≡ body_at F.WIDE }
{
    HEADER + RECORDS * entry_size::<F>()
}

// How many bytes a container takes whose fingerprints are of this kind.
pub fn container_size<F: Fingerprint>() -> usize
    ensures { result ≡ container_size F.Key.WIDE }
{
    body_at::<F>() + BODY
}

// Whether there may be `count` containers, and they have this length together.
pub fn has_length<F: Fingerprint>(length: usize, count: usize) -> bool
    ensures yes { T result → Count F.Key.WIDE length count }
    ensures no { Count F.Key.WIDE length count → T result }
{
    (2..=32).contains(&count) && length == count * container_size::<F>()
}
