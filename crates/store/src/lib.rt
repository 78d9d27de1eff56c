// The store: records go in once, sheets are kept by name, and readings walk a sheet's text strip by strip.
#![tactic(auto)]

pub mod admitting;
pub mod keeping;
pub mod putting;
pub mod reading;
pub mod state;
pub mod tokens;

pub use state::Store;
pub use tokens::{ReadToken, Stored};
