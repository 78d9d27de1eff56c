// The catalogue of sheets: which trees are kept, under which names, and how many readings of each are out.
#![tactic(auto)]

pub mod entries;
pub mod name;
pub mod search;
pub mod sheet;
pub mod upkeep;

pub use entries::Catalogue;
pub use name::Name;
pub use search::{find, is_nameable, vacancy};
pub use sheet::Sheet;
