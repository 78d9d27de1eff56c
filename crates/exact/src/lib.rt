// The exact table: a live set that says yes to exactly the keys learned and marked.
#![tactic(auto)]

pub mod remember;
pub mod table;
pub mod table_set;

pub use table::ExactTable;
