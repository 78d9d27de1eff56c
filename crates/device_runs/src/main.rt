// Sends the same questions and changes to container files and tapes of two kinds, and prints what they answer.
#![tactic(auto)]

use anyhow::{Context, anyhow};
use container_file::ContainerFile;
use container_format::container_size;
use devices::Device;
use keys::{Fingerprint, Fnv};
use one_byte::OneByte;
use records::{Place, Record, Refusal};
use std::alloc::Global;
use tape::{Tape, tape_size};

const CONTAINERS: usize = 3;

// A line of the input.
#[derive(Clone, Copy)]
enum Step {
    Append {
        container: usize,
        level: u8,
        len: usize,
        fill: u8,
    },
    Erase(usize),
    Container(usize),
    Record(Place),
    Find {
        level: u8,
        len: usize,
        fill: u8,
    },
}

// The numbers of a line.
fn numbers(text: &str) -> anyhow::Result<[usize; 4]> {
    let mut all = [0usize; 4];
    for (number, word) in all.iter_mut().zip(text.split_whitespace()) {
        *number = word.parse::<usize>()?;
    }
    Ok(all)
}

fn byte(number: usize) -> u8 {
    (number % 256) as u8
}

fn read_step(text: &str) -> anyhow::Result<Step> {
    let (word, rest) = text
        .split_once(' ')
        .context("a word and numbers are wanted")?;
    let [a, b, c, d] = numbers(rest)?;
    match word {
        "append" => Ok(Step::Append {
            container: a,
            level: byte(b),
            len: c,
            fill: byte(d),
        }),
        "erase" => Ok(Step::Erase(a)),
        "container" => Ok(Step::Container(a)),
        "record" => Ok(Step::Record(Place {
            container: a,
            index: b,
        })),
        "find" => Ok(Step::Find {
            level: byte(a),
            len: b,
            fill: byte(c),
        }),
        _ => Err(anyhow!("no such word")),
    }
}

// A refusal's number, or what was answered.
fn told(heap: Global, answer: Result<usize, Refusal>) -> anyhow::Result<String> {
    match answer {
        Ok(value) => Ok(format!(in heap; "{value}")?),
        Err(refusal) => {
            let number = refusal.cause.number();
            Ok(format!(in heap; "refused {number}")?)
        }
    }
}

// Three numbers as one to print.
fn shown(level: u8, len: usize, first: u8) -> usize {
    (1_000_000 * usize::from(level))
        .saturating_add(len.saturating_mul(1000))
        .saturating_add(usize::from(first))
}

// A record's level, length and first byte as one number, or the refusal.
fn record<D: Device>(device: &D, place: Place) -> Result<usize, Refusal> {
    let mut buffer = [0u8; 1280];
    let level = device.level(place)?;
    let len = device.payload(place, &mut buffer)?;
    let same = device.payload_len(place)?;
    let right = device.fingerprint(place)? == D::Kind::of(level, &buffer[..len.min(1280)]);
    let sum = shown(level, len.min(1280), buffer[0]);
    if right && same == len { Ok(sum) } else { Ok(0) }
}

// A place as one number; 0 for none.
fn found(place: Option<Place>) -> usize {
    place.map_or(0, |place| {
        100 + 100 * place.container.min(99) + place.index.min(99)
    })
}

// What a device answers to a line.
fn answer<D: Device>(heap: Global, device: &mut D, step: Step) -> anyhow::Result<String> {
    match step {
        Step::Append {
            container,
            level,
            len,
            fill,
        } => {
            let payload = vec![in heap; fill; len]?;
            let added = Record::of(level, &payload);
            told(heap, device.append(container, added).map(|()| 0))
        }
        Step::Erase(container) => told(heap, device.erase(container).map(|()| 0)),
        Step::Container(container) => {
            let records = told(heap, device.records(container))?;
            let bytes = told(heap, device.payload_bytes(container))?;
            Ok(format!(in heap; "{records} {bytes}")?)
        }
        Step::Record(place) => told(heap, record(device, place)),
        Step::Find { level, len, fill } => {
            let payload = vec![in heap; fill; len]?;
            told(
                heap,
                Ok(found(device.first_place(D::Kind::of(level, &payload)))),
            )
        }
    }
}

// A file and a tape of one kind, which must answer alike.
#[derive(Drop)]
struct Both<F: Fingerprint> {
    file: ContainerFile<F>,
    tape: Tape<F>,
}

fn lay_out_both<F: Fingerprint>(heap: Global) -> anyhow::Result<Both<F>> {
    let size = tape_size::<F>(CONTAINERS).context("no such tape")?;
    let file = ContainerFile::<F>::lay_out(
        vec![in heap; 7u8; CONTAINERS * container_size::<F>()]?,
        CONTAINERS,
    )
    .ok()
    .context("no file")?;
    let tape = Tape::<F>::lay_out(vec![in heap; 7u8; size]?, CONTAINERS)
        .ok()
        .context("no tape")?;
    Ok(Both { file, tape })
}

// What both answer, or that they differ.
fn ask<F: Fingerprint>(heap: Global, pair: &mut Both<F>, step: Step) -> anyhow::Result<String> {
    let first = answer(heap, &mut pair.file, step)?;
    let second = answer(heap, &mut pair.tape, step)?;
    if first == second {
        Ok(first)
    } else {
        Ok(format!(in heap; "{first} BUT {second}")?)
    }
}

fn main(rt: HostRuntime) -> anyhow::Result<()> {
    let heap = rt.alloc();
    let mut wide = lay_out_both::<Fnv>(heap)?;
    let mut narrow = lay_out_both::<OneByte>(heap)?;
    let mut none = ContainerFile::<Fnv>::over(Vec::new(heap));
    for line in rt.lines(heap) {
        let line = line?;
        let text = line.as_str();
        let step = read_step(text)?;
        let a = ask(heap, &mut wide, step)?;
        let b = ask(heap, &mut narrow, step)?;
        let c = answer(heap, &mut none, step)?;
        println!(rt; "{text}: {a}; {b}; {c}")?;
    }
    Ok(())
}
