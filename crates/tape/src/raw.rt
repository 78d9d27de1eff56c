// Writing an entry in bytes.
ghost use Rattle.std.specs.Prelude.{◌≡◌, ◌+◌, ◌^◌, ◌<◌, ◌≤◌, ◌∷◌, ◌++◌, length, take, drop, slice_index};
ghost use Rattle.keys.specs.Octets.{Bytes, little};
ghost use Rattle.records.specs.Records.{rec_of};
ghost use Rattle.tape.specs.Log.{length_at, laid_before};

use keys::Fingerprint;
use records::Record;

// Writes bytes over the front of others.
pub(crate) fn put_front(to: &mut [u8], from: &[u8])
    requires { length from.now ≤ length to.old }
    ensures after { to.new ≡ from.now ++ drop (length from.now) to.old }
    ensures octets { Bytes from.now }
{
    to[..from.len()].copy_from_slice(from);
}

// Writes an entry's head over the front of some bytes.
fn put_head(to: &mut [u8], container: u8, level: u8, len: usize)
    requires space { 4 ≤ length to.old }
    requires short { len < 2 ^ 16 }
    ensures { to.new ≡ container ∷ level ∷ (little 2 len ++ drop 4 to.old) }
{
    let [low, high] = (len as u16).to_le_bytes();
    put_front(to, &[container, level, low, high]);
}

// Writes an entry over the front of some bytes.
fn put_entry<F: Fingerprint>(to: &mut [u8], container: u8, added: Record<'_, F>)
    requires space { F.Key.WIDE + 4 + length added.payload.now ≤ length to.old }
    requires short { length added.payload.now ≤ 1280 }
    ensures after { to.new ≡ laid_before (record { container = container; stored = rec_of F.Key.bytes added.entry }) (drop (F.Key.WIDE + 4 + length added.entry.payload.now) to.old) }
    ensures octets { Bytes added.entry.payload.now }
{
    put_head(to, container, added.level, added.payload.len());
    // It fits, so the answer says nothing new.
    let _ = added.fingerprint.write(&mut to[4..]);
    put_front(&mut to[F::WIDE + 4..], added.payload);
}

// Writes an entry at `at`.
pub(crate) fn add_entry<F: Fingerprint>(
    bytes: &mut [u8],
    at: usize,
    container: u8,
    added: Record<'_, F>,
)
    requires space { at + (F.Key.WIDE + 4 + length added.payload.now) ≤ length bytes.old }
    requires short { length added.payload.now ≤ 1280 }
    ensures after { bytes.new ≡ take at bytes.old ++ laid_before (record { container = container; stored = rec_of F.Key.bytes added.entry }) (drop (F.Key.WIDE + 4 + length added.entry.payload.now) (drop at bytes.old)) }
    ensures octets { Bytes added.entry.payload.now }
{
    put_entry(&mut bytes[at..], container, added);
}
