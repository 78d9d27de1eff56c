// Where a walk along the slots ended.
ghost use Rattle.std.specs.Prelude.{◌≡◌};
ghost use Rattle.slots.specs.Walks.{is_found};

// Its three ends have a name each, which an Option or a Result of places would not give them.
#[derive(Clone, Copy, Debug, PartialEq, Eq)]
pub enum Probe {
    // The key is held at this place.
    Found(usize),
    // The key is not held, and this place is empty.
    Free(usize),
    // Every slot is taken by another key.
    Full,
}

impl Probe {
    // Whether the walk met its key.
    pub fn is_found(self) -> bool
        ensures { result ≡ is_found self }
    {
        matches!(self, Probe::Found(_))
    }
}
