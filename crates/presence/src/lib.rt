// Presence: whether a record is stored already.
#![tactic(auto)]

pub mod present;
pub mod storing;

pub use present::Presence;
pub use storing::presence_of;
