// Devices: what keeps containers of records, by what it means and not by how it keeps them.
#![tactic(auto)]

pub mod device;
pub mod free;
pub mod limits;

pub use device::Device;
pub use free::is_free;
pub use limits::{is_storable, joins};
