// The slot table: open addressing over slots that the caller owns, for any kind of key.
#![tactic(auto)]

pub mod marking;
pub mod probe;
pub mod slot;
pub mod table;
mod walk;

pub use marking::{is_marked, mark_key, unmark};
pub use probe::Probe;
pub use slot::Slot;
pub use table::{empty, insert, lookup};
