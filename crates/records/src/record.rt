// A record as calls pass it.
ghost use Rattle.std.specs.Prelude.{◌≡◌};

use keys::Fingerprint;

// The level, the fingerprint and the payload of a record.
#[derive(Clone, Copy, Debug)]
pub struct Record<'a, F> {
    pub level: u8,
    pub fingerprint: F,
    pub payload: &'a [u8],
}

impl<'a, F: Fingerprint> Record<'a, F> {
    // The record of a level and a payload, under the fingerprint that they have.
    pub fn of(level: u8, payload: &'a [u8]) -> Self
        ensures { result ≡ record { level = level; fingerprint = F.Fingerprint.naming level payload.now; payload = payload.entry } }
    {
        Record {
            level,
            fingerprint: F::of(level, payload),
            payload,
        }
    }
}
