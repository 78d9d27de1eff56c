// The tape.
ghost use Rattle.tape.specs.Sizes.{Good};

use std::marker::PhantomData;

// Containers whose records stand in one log at the front of given bytes.
#[derive(Drop)]
pub struct Tape<F> {
    pub(crate) bytes: Vec<u8>,
    // F's width, kept as a value: a ghost field that cites it is not covered in a struct that owns a Vec.
    pub(crate) width: usize,
    pub(crate) containers: usize,
    pub(crate) entries: usize,
    pub(crate) used: usize,
    pub(crate) kind: PhantomData<F>,
    ghost good: { ∥ Good width containers entries used bytes.items ∥₁ },
}
