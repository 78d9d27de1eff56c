// Live sets: what one is, what all of them count, and a set that is one of two.
#![tactic(auto)]

pub mod intake;
pub mod live_set;
pub mod one_of;

pub use intake::Intake;
pub use live_set::LiveSet;
pub use one_of::OneOf;
