// What can be wrong with a tree.
ghost use Rattle.std.specs.Prelude.{◌≡◌};
ghost use Rattle.walks.specs.Findings.{refusal_of};

use records::{Cause, Place, Refusal};
use thiserror::Error;

// Why an examination doesn't tell that a tree is whole.
#[derive(Clone, Copy, Debug, PartialEq, Eq, Error)]
pub enum Flaw {
    // The root is not a stored node.
    #[error("the root is not a stored node")]
    NoRoot,
    // The node at this place has a child that is not stored at the level just below.
    #[error("the node at {}.{} lacks a child at the level just below", .0.container, .0.index)]
    Broken(Place),
    // The table has fewer slots than there are records.
    #[error("the table has fewer slots than there are records")]
    TableFull,
}

// The refusal that a flaw is to a caller of the store; it tells no place.
impl From<Flaw> for Refusal {
    ghost from_gives = { λ flaw result. result ≡ refusal_of flaw };

    fn from(flaw: Flaw) -> Self {
        match flaw {
            Flaw::NoRoot => Refusal::from(Cause::NoRoot),
            Flaw::Broken(_) => Refusal::from(Cause::BrokenTree),
            Flaw::TableFull => Refusal::from(Cause::TooShort),
        }
    }
}
