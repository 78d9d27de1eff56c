// Writing a record into a container, and emptying a container.
ghost use Rattle.std.specs.Prelude.{◌≡◌, ◌+◌, ◌-◌, ◌^◌, ◌<◌, ◌≤◌, [], ◌∷◌, ◌++◌, T, length, replicate, slice_set};
ghost use Rattle.keys.specs.Octets.{Bytes, little};
ghost use Rattle.records.specs.Records.{rec_of};
ghost use Rattle.devices.specs.Questions.{records_of};
ghost use Rattle.devices.specs.Changes.{storable, takes, appended, erased};
ghost use Rattle.container_format.specs.Writing.{written};
ghost use Rattle.container_file.specs.Meaning.{contents_of, Headed};

use crate::file::ContainerFile;
use crate::header::Header;
use container_format::{HEADER, body_at, container_size, entry_size};
use keys::{Fingerprint, Key};
use records::Record;

// Copies `from` over `to`, which is as long. A part of the device's bytes from their middle is given to it for writing.
pub(crate) fn copy(to: &mut [u8], from: &[u8])
    requires { length from.now ≡ length to.old }
    ensures { to.new ≡ from.now }
{
    to.copy_from_slice(from);
}

// Writes `from`, which are bytes, into the middle of `bytes`.
fn put(bytes: &mut Vec<u8>, at: usize, from: &[u8])
    requires { at + length from.now ≤ length bytes.old.items }
    ensures octets { Bytes from.now }
    ensures len { length bytes.new.items ≡ length bytes.old.items }
    ensures after { bytes.new.items ≡ written at from.now bytes.old.items }
{
    let end = at + from.len();
    copy(&mut bytes[at..end], from);
}

// Writes a key into the middle of `bytes`.
fn put_key<K: Key>(bytes: &mut Vec<u8>, at: usize, key: K)
    requires { at + K.WIDE ≤ length bytes.old.items }
    ensures len { length bytes.new.items ≡ length bytes.old.items }
    ensures after { bytes.new.items ≡ written at (K.bytes key) bytes.old.items }
{
    // It fits, so the answer says nothing new.
    let _ = key.write(&mut bytes[at..]);
}

// The bytes of an entry behind its fingerprint.
fn entry_tail(level: u8, len: usize, offset: usize) -> [u8; 8]
    requires len { len < 2 ^ 16 }
    requires offset { offset < 2 ^ 32 }
    ensures { result ≡ level ∷ 0 ∷ (little 2 len ++ little 4 offset) }
{
    // Casts that lose nothing, as the contract has it: `try_from` would bring an error that never is.
    let [a, b] = (len as u16).to_le_bytes();
    let [c, d, e, f] = (offset as u32).to_le_bytes();
    [level, 0, a, b, c, d, e, f]
}

// The bytes of a header that are in use.
fn header_bytes(count: usize, used: usize) -> [u8; 4]
    requires count { count < 2 ^ 16 }
    requires used { used < 2 ^ 16 }
    ensures { result ≡ little 2 count ++ little 2 used }
{
    let [a, b] = (count as u16).to_le_bytes();
    let [c, d] = (used as u16).to_le_bytes();
    [a, b, c, d]
}

impl<F: Fingerprint> ContainerFile<F> {
    // Writes a record behind the others of a container that takes it: the payload into the body behind the used part, then its entry, then the header.
    pub(crate) fn write_record(&mut self, header: Header, added: Record<'_, F>)
        requires here { Headed F.Key.WIDE self.old header }
        requires storable { T (storable (rec_of F.Key.bytes added)) }
        requires takes { T (takes (records_of (contents_of F.Key.WIDE self.old) header.container) (rec_of F.Key.bytes added)) }
        ensures { contents_of F.Key.WIDE self.new ≡ appended (contents_of F.Key.WIDE self.old) header.container (rec_of F.Key.bytes added.entry) }
    {
        let Record {
            level,
            fingerprint,
            payload,
        } = added;
        let len = payload.len();
        let at = header.base + (HEADER + header.records * entry_size::<F>());
        let tail = entry_tail(level, len, header.used);
        let head = header_bytes(header.records + 1, header.used + len);
        let end = header.base + (body_at::<F>() + header.used);
        put(&mut self.bytes, end, payload);
        put_key(&mut self.bytes, at, fingerprint);
        put(&mut self.bytes, at + F::WIDE, &tail);
        put(&mut self.bytes, header.base, &head);
    }

    // Empties a container: all its bytes are zero then.
    pub(crate) fn clear_container(&mut self, header: Header)
        requires { Headed F.Key.WIDE self.old header }
        ensures { contents_of F.Key.WIDE self.new ≡ erased (contents_of F.Key.WIDE self.old) header.container }
    {
        zero(
            &mut self.bytes,
            header.base,
            header.base + container_size::<F>(),
        );
    }
}

// Makes the bytes from `from` up to `end` zero.
pub(crate) fn zero(bytes: &mut Vec<u8>, from: usize, end: usize)
    requires order { from ≤ end }
    requires inside { end ≤ length bytes.old.items }
    ensures { bytes.new.items ≡ written from (replicate (end - from) 0) bytes.old.items }
{
    (&mut bytes[from..end]).fill(0);
}
