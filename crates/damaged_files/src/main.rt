// Turns bytes of a container file as the lines of its input say, and prints what the check answers to each.
#![tactic(auto)]

use anyhow::Context;
use container_format::check;
use keys::{Fingerprint, Fnv};
use one_byte::OneByte;
use std::alloc::Global;
use std::fs;

// What the check answers, as a line.
fn answer<F: Fingerprint>(rt: &HostRuntime, name: &str, bytes: &[u8]) -> anyhow::Result<()> {
    match check::<F>(bytes) {
        Ok(count) => println!(rt; "{name}: {count} containers")?,
        Err(refusal) => {
            let number = refusal.cause.number();
            println!(rt; "{name}: refused {number}")?;
        }
    }
    Ok(())
}

// Puts the bytes that follow, each behind its offset, into a copy of the file.
fn turned(heap: Global, file: &[u8], words: &str) -> anyhow::Result<Vec<u8>> {
    let mut bytes = Vec::from_slice(heap, file)?;
    let mut at = None;
    for word in words.split_whitespace() {
        match at {
            None => at = Some(word.parse::<usize>()?),
            Some(place) => {
                if let Some(byte) = bytes.get_mut(place) {
                    *byte = word.parse::<u8>()?;
                }
                at = None;
            }
        }
    }
    Ok(bytes)
}

// A file of zero bytes at a width: 8 for FNV, else 1.
fn zeros(rt: &HostRuntime, name: &str, words: &str) -> anyhow::Result<()> {
    let (width, length) = words
        .split_once(' ')
        .context("a width and a length are wanted")?;
    let bytes = vec![in rt.alloc(); 0u8; length.parse::<usize>()?]?;
    if width == "8" {
        answer::<Fnv>(rt, name, &bytes)
    } else {
        answer::<OneByte>(rt, name, &bytes)
    }
}

fn line(rt: &HostRuntime, file: &[u8], text: &str) -> anyhow::Result<()> {
    let (name, rest) = text.split_once('|').context("a name is wanted")?;
    let (word, numbers) = rest.split_once(' ').context("a word is wanted")?;
    if word == "turn" {
        let bytes = turned(rt.alloc(), file, numbers)?;
        answer::<Fnv>(rt, name, &bytes)
    } else {
        zeros(rt, name, numbers)
    }
}

fn main(rt: HostRuntime) -> anyhow::Result<()> {
    let file = fs::read(&rt, "sample.containers")?;
    for text in rt.lines(rt.alloc()) {
        let text = text?;
        line(&rt, &file, text.as_str())?;
    }
    Ok(())
}
