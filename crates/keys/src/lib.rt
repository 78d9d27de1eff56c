// Keys: names of a fixed width that are equal exactly when their bytes are.
#![tactic(auto)]

pub mod fingerprint;
pub mod fnv;
pub mod hash;
pub mod key;
pub mod kinds;
pub mod pair;

pub use fingerprint::Fingerprint;
pub use fnv::Fnv;
pub use key::Key;
pub use kinds::{home, is_named};
pub use pair::Pair;
