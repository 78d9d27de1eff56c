// The shape of a strip and of a node.
ghost use Rattle.std.specs.Prelude.{◌≡◌, ◌≤◌, true, length};
ghost use Rattle.records.specs.Shapes.{Shape, shaped};

use keys::Fingerprint;

// Whether a level and a length make a shape.
fn has_shape<F: Fingerprint>(level: u8, bytes: usize) -> bool
    ensures { result ≡ shaped F.Key.WIDE level bytes }
{
    match level {
        0 => (1..=1024).contains(&bytes),
        1..=6 => (F::WIDE..=64 * F::WIDE).contains(&bytes) && bytes % F::WIDE == 0,
        _ => false,
    }
}

// Whether a level and a payload have the shape of a strip, or of a node whose children have this kind of fingerprint.
pub fn is_shaped<F: Fingerprint>(level: u8, payload: &[u8]) -> bool
    ensures answer { result ≡ shaped F.Key.WIDE level (length payload.now) }
    ensures shape { result ≡ true → Shape F.Key.WIDE level (length payload.now) }
    ensures only { Shape F.Key.WIDE level (length payload.now) → result ≡ true }
{
    has_shape::<F>(level, payload.len())
}
