// A small kind of fingerprint to try things with: one byte, so that two records soon have the same.
#![tactic(auto)]

pub mod byte;
pub mod kind;

pub use byte::OneByte;
