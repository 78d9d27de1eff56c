// A container file that a device owns.
ghost use Rattle.std.specs.Prelude.{◌≤◌};
ghost use Rattle.container_format.specs.Checking.{Intact};

use std::marker::PhantomData;

// The bytes, how many containers they are, and the width they were checked at.
// The width is kept beside the kind: a ghost field that cites a bound does not work in a struct that owns a `Vec`.
#[derive(Drop)]
pub struct ContainerFile<F> {
    pub(crate) bytes: Vec<u8>,
    pub(crate) count: usize,
    pub(crate) width: usize,
    pub(crate) kind: PhantomData<F>,
    ghost few: { count ≤ 32 },
    ghost narrow: { width ≤ 20 },
    ghost intact: { ∥ Intact width count bytes.items ∥₁ },
}
