// A log, read entry by entry.
ghost use Rattle.tape.specs.Log.{Logged};

use keys::Fingerprint;
use std::marker::PhantomData;

// What is left to read of a log: so many entries at the front of some bytes.
#[derive(Drop)]
pub(crate) struct Log<'a, F: Fingerprint> {
    pub bytes: &'a [u8],
    pub entries: usize,
    pub kind: PhantomData<F>,
    ghost logged: { ∥ Logged F.Key.WIDE entries bytes.now ∥₁ },
}
