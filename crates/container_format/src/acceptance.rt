// Whether some bytes are a container file.
ghost use Rattle.std.specs.Prelude.{◌≡◌, ◌+◌, ◌*◌, ◌≤◌, T, length, take, MatchOption};
ghost use Rattle.keys.specs.Octets.{number};
ghost use Rattle.container_format.specs.Layout.{container_size};
ghost use Rattle.container_format.specs.Reading.{length_in};
ghost use Rattle.container_format.specs.Checking.{Zeros, EntryOk, EntriesOk, HeaderOk, ContainerOk, ContainersOk, Checked, OneFile};

use crate::numbers::{u16_at, u32_at};
use crate::sizes::{BODY, HEADER, RECORDS, body_at, container_size, entry_size, has_length};
use keys::{Fingerprint, Key};
use records::{Cause, Refusal};

fn all_zero(bytes: &[u8]) -> bool
    ensures yes { T result → Zeros bytes.now }
    ensures no { Zeros bytes.now → T result }
{
    bytes.iter().all(|byte| *byte == 0)
}

// The payload length that an entry names, if the entry is in order.
fn entry_length<F: Key>(entry: &[u8], offset: usize) -> Option<usize>
    requires long { length entry.now ≡ F.WIDE + 8 }
    requires inside { offset ≤ 7168 }
    ensures { MatchOption result (EntryOk F.WIDE offset entry.now → ⊥) (λ n. EntryOk F.WIDE offset entry.now × (n ≡ length_in F.WIDE entry.now)) }
{
    let len = u16_at(entry, F::WIDE + 2);
    let named = u32_at(entry, F::WIDE + 4);
    let in_order = entry[F::WIDE] <= 6
        && entry[F::WIDE + 1] == 0
        && (1..=1280).contains(&len)
        && named == offset
        && offset + len <= BODY;
    in_order.then_some(len)
}

// Whether the first `count` entries are in order, and nothing stands behind them or behind their payloads.
fn entries_in_order<F: Key>(entries: &[u8], body: &[u8], count: usize, used: usize) -> bool
    requires few { count ≤ 63 }
    requires long { length entries.now ≡ 63 * (F.WIDE + 8) }
    requires whole { length body.now ≡ 7168 }
    ensures yes { T result → EntriesOk F.WIDE used count 0 entries.now body.now }
    ensures no { EntriesOk F.WIDE used count 0 entries.now body.now → T result }
{
    let size = entry_size::<F>();
    let (listed, unused) = entries.split_at(count * size);
    let mut offset = 0;
    for entry in listed.chunks_exact(size) {
        let Some(len) = entry_length::<F>(entry, offset) else {
            return false;
        };
        offset += len;
    }
    offset == used && all_zero(unused) && all_zero(&body[offset..])
}

// The record count that a container's header names, if the header is in order.
fn header_count(bytes: &[u8]) -> Option<usize>
    requires { 16 ≤ length bytes.now }
    ensures { MatchOption result (HeaderOk bytes.now → ⊥) (λ n. HeaderOk bytes.now × (n ≡ number (take 2 bytes.now)) × (n ≤ 63)) }
{
    let count = u16_at(bytes, 0);
    (count <= RECORDS && all_zero(&bytes[4..HEADER])).then_some(count)
}

// Whether the bytes of one container follow the layout.
fn container_in_order<F: Key>(bytes: &[u8]) -> bool
    requires { length bytes.now ≡ container_size F.WIDE }
    ensures yes { T result → ContainerOk F.WIDE bytes.now }
    ensures no { ContainerOk F.WIDE bytes.now → T result }
{
    let Some(count) = header_count(bytes) else {
        return false;
    };
    let used = u16_at(bytes, 2);
    let (table, body) = bytes.split_at(body_at::<F>());
    entries_in_order::<F>(&table[HEADER..], body, count, used)
}

// Whether `count` containers, one behind the other, follow the layout.
fn containers_in_order<F: Fingerprint>(bytes: &[u8], count: usize) -> bool
    requires { length bytes.now ≡ count * container_size F.Key.WIDE }
    ensures yes { T result → ContainersOk F.Key.WIDE count bytes.now }
    ensures no { ContainersOk F.Key.WIDE count bytes.now → T result }
{
    // A closure: a generic function given by its name is not covered by the checker yet.
    bytes
        .chunks_exact(container_size::<F>())
        .all(|container| container_in_order::<F>(container))
}

// The number of containers of a container file, or why the bytes are none.
pub fn check<F: Fingerprint>(bytes: &[u8]) -> Result<usize, Refusal>
    ensures answer { Checked F.Key.WIDE bytes.now result }
    ensures one { OneFile F.Key.WIDE }
{
    let count = bytes.len() / container_size::<F>();
    if !has_length::<F>(bytes.len(), count) {
        return Err(Refusal::from(Cause::Size));
    }
    if !containers_in_order::<F>(bytes, count) {
        return Err(Refusal::from(Cause::Layout));
    }
    Ok(count)
}
