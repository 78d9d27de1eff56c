// Records: what lies in a container, the shapes and limits it must keep, and every refusal there is.
#![tactic(auto)]

pub mod limits;
pub mod record;
pub mod refusal;
pub mod shape;

pub use limits::{MOST_BYTES, MOST_RECORDS};
pub use record::Record;
pub use refusal::{Cause, Place, Refusal};
pub use shape::is_shaped;
