// The container file as a device: a stranger's bytes, checked once and then asked and changed in place.
#![tactic(auto)]

pub mod changes;
pub mod device;
pub mod file;
mod header;
pub mod questions;

pub use file::ContainerFile;
