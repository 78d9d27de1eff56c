// Positions that lead nowhere.
use thiserror::Error;

// The position is none of the tree's, or its strip is not stored.
#[derive(Clone, Copy, Debug, PartialEq, Eq, Error)]
#[error("the position leads to no stored strip of the tree")]
pub struct Astray;
