// Admission: what a store examines before it admits a device of any contents.
#![tactic(auto)]

pub mod causes;
pub mod examining;

pub use examining::examine_device;
