// Walks over trees of records, on any device: the cursor's descent, and the examination of a tree.
#![tactic(auto)]

pub mod astray;
mod children;
pub mod cursor;
pub mod examination;
pub mod flaw;
mod sweep;

pub use astray::Astray;
pub use cursor::{leads_to, position_after, strip_at};
pub use examination::examine;
pub use flaw::Flaw;
