// girvoupa copy FROM TO: a container file copied record by record, by way of a tape, into one laid out afresh.
ghost use Rattle.std.specs.Prelude.{◌≡◌, ◌==◌, not, [], position, take, replicate, IfOk, MatchOption, ◌≢◌};
ghost use Rattle.std.specs.List.{zip};
ghost use Rattle.container_file.specs.Meaning.{contents_of};
ghost use Rattle.tape.specs.Meaning.{held_by};

use container_file::ContainerFile;
use container_format::container_size;
use copying::copy_all;
use devices::Device;
use keys::Fingerprint;
use records::{Cause, Refusal};
use std::alloc::{AllocError, Global};
use std::io;
use tape::{Tape, tape_size};
use thiserror::Error;

// Why a copy was not made.
#[derive(Clone, Copy, Debug, Error)]
pub enum Fault {
    #[error("{0}")]
    Refused(#[from] Refusal),
    #[error("no memory")]
    NoMemory(#[from] AllocError),
}

// A tape of free containers.
fn fresh_tape<F: Fingerprint>(heap: Global, count: usize) -> Result<Tape<F>, Fault>
    ensures { IfOk result (λ t. held_by F.Key.WIDE t ≡ replicate count []) }
{
    let size = tape_size::<F>(count).ok_or(Refusal::from(Cause::Size))?;
    let tape = Tape::lay_out(vec![in heap; 0u8; size]?, count).map_err(|(refusal, _)| refusal)?;
    Ok(tape)
}

// A file of free containers.
fn fresh_file<F: Fingerprint>(heap: Global, count: usize) -> Result<ContainerFile<F>, Fault>
    ensures { IfOk result (λ s. contents_of F.Key.WIDE s ≡ replicate count []) }
{
    let size = container_size::<F>().saturating_mul(count);
    let file = ContainerFile::lay_out(vec![in heap; 0u8; size]?, count).map_err(|(
        refusal,
        _,
    )| refusal)?;
    Ok(file)
}

// The copy of a file, by way of a tape: it holds what the file holds.
pub fn copy_file<F: Fingerprint>(
    heap: Global,
    file: &ContainerFile<F>,
) -> Result<ContainerFile<F>, Fault>
    ensures { IfOk result (λ s. contents_of F.Key.WIDE s ≡ contents_of F.Key.WIDE file.now) }
{
    let count = file.count();
    let mut between = fresh_tape::<F>(heap, count)?;
    let mut copy = fresh_file::<F>(heap, count)?;
    copy_all(file, &mut between)?;
    copy_all(&between, &mut copy)?;
    Ok(copy)
}

// How many records and payload bytes a device has: two sums in one pass over its containers.
fn totals<D: Device>(device: &D) -> (usize, usize) {
    let mut records = 0usize;
    let mut bytes = 0usize;
    for container in 0..device.count() {
        records = records.saturating_add(device.records(container).unwrap_or(0));
        bytes = bytes.saturating_add(device.payload_bytes(container).unwrap_or(0));
    }
    (records, bytes)
}

// The first place at which two rows of bytes have two bytes that differ, if they do.
fn unequal_at(first: &[u8], second: &[u8]) -> Option<usize>
    ensures { result ≡ position (λ p. not (p.0 == p.1)) (zip first.now second.now) }
{
    first.iter().zip(second).position(|(a, b)| a != b)
}

// The first place at which two rows of bytes differ, if they do: where one ends before the other, its end.
fn difference(first: &[u8], second: &[u8]) -> Option<usize>
    ensures { MatchOption result (first.now ≡ second.now) (λ at. (take at first.now ≡ take at second.now) × (first.now ≢ second.now)) }
{
    if first == second {
        return None;
    }
    let shorter = first.len().min(second.len());
    Some(unequal_at(first, second).unwrap_or(shorter))
}

// Prints what was moved, and whether the copy is equal byte for byte.
pub fn report<F: Fingerprint>(
    rt: &impl Print,
    file: &ContainerFile<F>,
    copy: &ContainerFile<F>,
) -> io::Result<()> {
    let count = copy.count();
    let (records, bytes) = totals(copy);
    println!(rt;
        "moved {records} records with {bytes} payload bytes in {count} containers, by way of a tape"
    )?;
    match difference(file.bytes(), copy.bytes()) {
        None => println!(rt; "the files are equal, byte for byte"),
        Some(at) => println!(rt; "the files differ from byte {at} on"),
    }
}
