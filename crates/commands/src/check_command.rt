// girvoupa check FILE: whether a file is a container file, and what lies in it.
use crate::hex::Hex;
use container_file::ContainerFile;
use container_format::check;
use devices::Device;
use keys::{Fingerprint, is_named};
use records::{Place, Refusal};
use std::io;

// Prints a record: its level, fingerprint and length, and whether the fingerprint is that of its level and payload.
fn list_record<F: Fingerprint>(
    rt: &impl Print,
    file: &ContainerFile<F>,
    place: Place,
) -> io::Result<()> {
    let (Ok(level), Ok(fingerprint), Ok(payload)) = (
        file.level(place),
        file.fingerprint(place),
        file.part(place),
    ) else {
        return Ok(());
    };
    let index = place.index;
    let hex = Hex(fingerprint);
    let length = payload.len();
    let named = if is_named(fingerprint, level, payload) {
        "right"
    } else {
        "WRONG"
    };
    println!(rt; "  record {index}: level {level}, fingerprint {hex} ({named}), {length} bytes")
}

// Prints a container and its records.
fn list_container<F: Fingerprint>(
    rt: &impl Print,
    file: &ContainerFile<F>,
    container: usize,
) -> io::Result<()> {
    let (Ok(records), Ok(bytes)) = (file.records(container), file.payload_bytes(container)) else {
        return Ok(());
    };
    println!(rt; "container {container}: {records} records, {bytes} payload bytes")?;
    // By number: a device is asked by place.
    for index in 0..records {
        list_record(rt, file, Place { container, index })?;
    }
    Ok(())
}

// Prints a file's containers, or why it is none.
pub fn list<F: Fingerprint>(rt: &impl Print, bytes: Vec<u8>) -> io::Result<()> {
    match check::<F>(&bytes) {
        Ok(count) => {
            println!(rt; "{count} containers")?;
            let file = ContainerFile::<F>::over(bytes);
            // By number: a device is asked by place.
            for container in 0..count {
                list_container(rt, &file, container)?;
            }
            Ok(())
        }
        Err(refusal) => println!(rt; "{refusal}"),
    }
}
