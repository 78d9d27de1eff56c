// The container file's format: its sizes, and the check of a stranger's bytes.
#![tactic(auto)]

pub mod acceptance;
pub mod numbers;
pub mod sizes;

pub use acceptance::check;
pub use numbers::{u16_at, u32_at};
pub use sizes::{BODY, HEADER, RECORDS, body_at, container_size, entry_size, has_length};
