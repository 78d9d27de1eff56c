// girvoupa sets FILE BYTES PLACE ..: what the exact table and a Bloom filter of some bytes say of a file's records when those named are marked.
use bloom::BloomFilter;
use container_file::ContainerFile;
use devices::Device;
use exact::ExactTable;
use keys::Fnv;
use live::LiveSet;
use records::Place;
use std::alloc::{AllocError, Global};
use std::io;

// All records' places, container by container.
pub fn places(heap: Global, file: &ContainerFile<Fnv>) -> Result<Vec<Place>, AllocError> {
    let mut all = Vec::new(heap);
    // By number, and into one Vec: a chain of chains that may run out of memory would be no plainer.
    for container in 0..file.count() {
        for index in 0..file.records(container).unwrap_or(0) {
            all.push(Place { container, index })?;
        }
    }
    Ok(all)
}

// Starts a set, has it learn every record's fingerprint, and seals it.
fn teach<L: LiveSet<Fnv>>(set: &mut L, file: &ContainerFile<Fnv>, all: &[Place]) {
    set.start();
    for fingerprint in all.iter().filter_map(|place| file.fingerprint(*place).ok()) {
        let _ = set.learn(fingerprint);
    }
    set.seal();
}

// Marks the records at some places.
fn mark<L: LiveSet<Fnv>>(set: &mut L, file: &ContainerFile<Fnv>, marked: &[Place]) {
    for fingerprint in marked
        .iter()
        .filter_map(|place| file.fingerprint(*place).ok())
    {
        set.mark(fingerprint);
    }
}

// Prints the records that only the filter says yes to, and how many each says yes to.
fn compare(
    rt: &impl Print,
    file: &ContainerFile<Fnv>,
    all: &[Place],
    table: &ExactTable<Fnv>,
    filter: &BloomFilter,
) -> io::Result<()> {
    let mut exact = 0usize;
    let mut wrong = 0usize;
    for place in all {
        if let Ok(fingerprint) = file.fingerprint(*place) {
            if table.says(fingerprint) {
                exact = exact.saturating_add(1);
            } else if filter.says(fingerprint) {
                let container = place.container;
                let index = place.index;
                println!(rt;
                    "record {index} of container {container}: the filter says yes, and it was not marked"
                )?;
                wrong = wrong.saturating_add(1);
            }
        }
    }
    println!(rt; "the exact table says yes to {exact}, the filter to {wrong} more")
}

// Marks the records at the places given in both sets, and prints how they differ.
pub fn show(
    rt: &(impl Print + AllocGlobal),
    file: &ContainerFile<Fnv>,
    bytes: usize,
    marked: &[Place],
) -> io::Result<()> {
    let heap = rt.alloc();
    let all = places(heap, file)?;
    let records = all.len();
    let mut table = ExactTable::over(vec![in heap; slots::Slot::Empty; records]?);
    let mut filter = BloomFilter::over(vec![in heap; 0u8; bytes]?);
    teach(&mut table, file, &all);
    teach(&mut filter, file, &all);
    mark(&mut table, file, marked);
    mark(&mut filter, file, marked);
    let count = marked.len();
    println!(rt; "{records} records, {count} named, a filter of {bytes} bytes")?;
    compare(rt, file, &all, &table, &filter)
}
