// Why a call or a file is refused, and where.
ghost use Rattle.std.specs.Prelude.{◌≡◌};
ghost use Rattle.records.specs.Refusals.{number_of, untold, told_at};

use std::fmt;
use thiserror::Error;

// Every reason for a refusal, with the number that callers are told.
#[derive(Clone, Copy, Debug, PartialEq, Eq, Hash)]
pub enum Cause {
    Size = 1,
    Layout = 2,
    Shape = 3,
    WrongFingerprint = 4,
    RepeatedFingerprint = 5,
    BadName = 6,
    NoRoot = 7,
    BrokenTree = 8,
    TooShort = 9,
    SmallSet = 10,
    NoSuchPlace = 11,
    WrongToken = 12,
    Shut = 13,
    AlreadyAdmitted = 14,
    NoneFree = 15,
    MarkingOpen = 16,
    NoMarking = 17,
    Collision = 18,
    StoreFull = 19,
    NameKept = 20,
    NameNotKept = 21,
    TooManySheets = 22,
    SheetInUse = 23,
    TooManyTokens = 24,
    ContainerFree = 25,
    ContainerFull = 26,
}

impl Cause {
    // The number of the refusal, 1 to 26.
    pub fn number(self) -> u8
        ensures { result ≡ number_of self }
    {
        self as u8
    }

    // What the refusal means, in a line for people. A derived Display could print it, and not hand it out.
    pub fn meaning(self) -> &'static str {
        match self {
            Cause::Size =>
                "the number of containers is not 2 to 32, or the length is not that number's",
            Cause::Layout => "a header, an entry or an unused byte breaks the layout",
            Cause::Shape => "the level or the length breaks a record's shape",
            Cause::WrongFingerprint =>
                "the stored fingerprint is not that of the level and the payload",
            Cause::RepeatedFingerprint => "two records have equal fingerprints",
            Cause::BadName => "the name is not 1 to 16 bytes from 21 to 7E (hexadecimal)",
            Cause::NoRoot => "the root is not a stored node",
            Cause::BrokenTree => "the tree is not whole",
            Cause::TooShort => "the table or the buffer is too short",
            Cause::SmallSet => "the live set's capacity is below the number of records",
            Cause::NoSuchPlace => "there is no such container or record",
            Cause::WrongToken =>
                "the token is not of this store, or not of a reading that is out here",
            Cause::Shut => "the store is shut",
            Cause::AlreadyAdmitted => "the store is admitted already",
            Cause::NoneFree => "no container is free",
            Cause::MarkingOpen => "a marking is open",
            Cause::NoMarking => "no marking is open",
            Cause::Collision => "the fingerprint is stored with another level or other bytes",
            Cause::StoreFull =>
                "the record does not fit the open container, and fewer than two are free",
            Cause::NameKept => "the name is kept already",
            Cause::NameNotKept => "the name is not kept",
            Cause::TooManySheets => "64 sheets are kept",
            Cause::SheetInUse => "the sheet has a token out",
            Cause::TooManyTokens => "sixteen tokens are out",
            Cause::ContainerFree => "the container is free",
            Cause::ContainerFull =>
                "the container has 63 records, or would have over 7,168 payload bytes",
        }
    }
}

impl fmt::Display for Cause {
    fn fmt<W: fmt::Write>(&self, f: &mut fmt::Formatter<W>) -> fmt::Result {
        f.write_str(self.meaning())
    }
}

impl std::error::Error for Cause {}

// A record's container and its index there; places are in rising container and record order.
#[derive(Clone, Copy, Debug, Default, PartialEq, Eq, PartialOrd, Ord, Hash)]
pub struct Place {
    pub container: usize,
    pub index: usize,
}

// A refusal: its cause, and the place it tells of, which is 0 and 0 where it tells of none, since callers are told two numbers in any case.
#[derive(Clone, Copy, Debug, PartialEq, Eq, Error)]
#[error("refused {}: {}", .cause.number(), .cause)]
pub struct Refusal {
    pub cause: Cause,
    pub place: Place,
}

impl Refusal {
    // A refusal that tells the place of a record.
    pub fn at(cause: Cause, place: Place) -> Self
        ensures { result ≡ told_at cause place }
    {
        Refusal { cause, place }
    }
}

// A cause alone is a refusal that tells no place.
impl From<Cause> for Refusal {
    ghost from_gives = { λ cause result. result ≡ untold cause };

    fn from(cause: Cause) -> Self {
        Refusal {
            cause,
            place: Place::default(),
        }
    }
}
