// Prints every refusal's text, and those of what a copy, an examination of a tree and a position can answer.
#![tactic(auto)]

use commands::copy_command::Fault;
use records::{Cause, Place, Refusal};
use std::alloc::AllocError;
use std::io;
use walks::{Astray, Flaw};

static CAUSES: [Cause; 26] = [
    Cause::Size,
    Cause::Layout,
    Cause::Shape,
    Cause::WrongFingerprint,
    Cause::RepeatedFingerprint,
    Cause::BadName,
    Cause::NoRoot,
    Cause::BrokenTree,
    Cause::TooShort,
    Cause::SmallSet,
    Cause::NoSuchPlace,
    Cause::WrongToken,
    Cause::Shut,
    Cause::AlreadyAdmitted,
    Cause::NoneFree,
    Cause::MarkingOpen,
    Cause::NoMarking,
    Cause::Collision,
    Cause::StoreFull,
    Cause::NameKept,
    Cause::NameNotKept,
    Cause::TooManySheets,
    Cause::SheetInUse,
    Cause::TooManyTokens,
    Cause::ContainerFree,
    Cause::ContainerFull,
];

fn main(rt: HostRuntime) -> io::Result<()> {
    for cause in CAUSES.iter() {
        let refusal = Refusal::from(*cause);
        println!(rt; "{refusal}")?;
    }
    for fault in [
        Fault::Refused(Refusal::from(Cause::Size)),
        Fault::NoMemory(AllocError),
    ] {
        println!(rt; "{fault}")?;
    }
    let node = Place {
        container: 3,
        index: 17,
    };
    for flaw in [Flaw::NoRoot, Flaw::Broken(node), Flaw::TableFull] {
        println!(rt; "{flaw}")?;
    }
    let astray = Astray;
    println!(rt; "{astray}")
}
