// The kinds of key that name records.
ghost use Rattle.std.specs.Prelude.{◌≡◌, ℕ, ◌≤◌, List};

use crate::key::Key;

// A key that a record has by its level and payload.
pub trait Fingerprint: Key {
    // The one fingerprint of a level and a payload.
    ghost naming: { ℕ → List ℕ → Self };

    // The fingerprint of a level and a payload.
    fn of(level: u8, payload: &[u8]) -> Self
        ensures { result ≡ naming level payload.now };

    // A fingerprint has a byte at least.
    ghost some: { 1 ≤ Self.Key.WIDE };
}
