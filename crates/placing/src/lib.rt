// Placing: which container a new record goes into, and putting it there.
#![tactic(auto)]

pub mod choosing;
pub mod filling;
pub mod free;
pub mod settling;

pub use choosing::{Choice, choose};
pub use filling::Filling;
pub use free::free_count;
pub use settling::store_record;
