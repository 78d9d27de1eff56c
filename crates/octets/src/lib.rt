// Rows of bytes.
#![tactic(auto)]

pub mod compare;

pub use compare::same_bytes;
