// Which command the arguments ask for.
use crate::check_command::list;
use crate::copy_command::{Fault, copy_file, report};
use crate::sets_command::show;
use anyhow::{Context, anyhow};
use container_file::ContainerFile;
use keys::{Fnv, Key};
use records::Place;
use std::alloc::Global;
use std::{env, fs};

const USAGE: &str =
    "usage: girvoupa check FILE | copy FROM TO | sets FILE BYTES CONTAINER.INDEX ..";

// Reads a file, or says which one cannot be read.
fn read(rt: &HostRuntime, path: &str) -> anyhow::Result<Vec<u8>> {
    fs::read(rt, path).map_err(|_| anyhow!("cannot read {path}"))
}

// Copies a file, reports, and writes the copy.
fn copy(rt: &HostRuntime, from: &str, to: &str) -> anyhow::Result<()> {
    let file = ContainerFile::<Fnv>::over(read(rt, from)?);
    match copy_file(rt.alloc(), &file) {
        Ok(copy) => {
            report(rt, &file, &copy)?;
            fs::write(rt, to, copy.bytes())?;
            Ok(())
        }
        Err(Fault::Refused(refusal)) => {
            println!(rt; "{refusal}")?;
            Ok(())
        }
        Err(fault) => Err(fault.into()),
    }
}

// A record's place, as CONTAINER.INDEX.
fn place(text: &str) -> anyhow::Result<Place> {
    let (container, index) = text.split_once('.').context(USAGE)?;
    Ok(Place {
        container: container.parse::<usize>()?,
        index: index.parse::<usize>()?,
    })
}

fn places(heap: Global, words: &[String]) -> anyhow::Result<Vec<Place>> {
    words
        .iter()
        .map(|word| place(word.as_str()))
        .try_collect(heap)
}

fn sets(rt: &HostRuntime, words: &[String]) -> anyhow::Result<()> {
    let [path, bytes, named @ ..] = words else {
        return Err(anyhow!("{USAGE}"));
    };
    let file = ContainerFile::<Fnv>::over(read(rt, path.as_str())?);
    let marked = places(rt.alloc(), named)?;
    show(rt, &file, bytes.as_str().parse::<usize>()?, &marked)?;
    Ok(())
}

// Carries out a command on the words behind it.
fn carry_out(rt: &HostRuntime, command: &str, words: &[String]) -> anyhow::Result<()> {
    match (command, words) {
        ("check", [path]) => {
            list::<Fnv>(rt, read(rt, path.as_str())?)?;
            Ok(())
        }
        ("copy", [from, to]) => copy(rt, from.as_str(), to.as_str()),
        ("sets", _) => sets(rt, words),
        _ => Err(anyhow!("{USAGE}")),
    }
}

// Carries out the command that the arguments name.
pub fn run(rt: &HostRuntime) -> anyhow::Result<()> {
    let mut args = env::args(rt)?;
    let _ = args.next();
    let command = args.next().context(USAGE)?;
    let words = args.collect::<Vec<String>>(rt.alloc())?;
    carry_out(rt, command.as_str(), &words)
}
