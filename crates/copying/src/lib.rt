// Copying all records from one device to another, container by container and in order.
#![tactic(auto)]

pub mod copies;

pub use copies::copy_all;
