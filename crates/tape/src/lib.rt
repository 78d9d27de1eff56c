// A tape: a device that keeps all records in one log, in the order of their arrival.
#![tactic(auto)]

mod access;
mod device;
mod entry;
mod layout;
mod log;
mod raw;
mod reading;
mod sweep;
mod tape;

pub use layout::tape_size;
pub use tape::Tape;
