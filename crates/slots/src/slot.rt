// One slot of a table.
ghost use Rattle.std.specs.Prelude.{◌≡◌};
ghost use Rattle.slots.specs.Walks.{key_of};
ghost use Rattle.slots.specs.Marks.{is_marked, plain};

// Three cases, and a mark only where there is a key: an Option of a key beside a flag would be no plainer.
#[derive(Clone, Copy, Debug, PartialEq, Eq)]
pub enum Slot<K> {
    Empty,
    // A key without a mark.
    Plain(K),
    // A key with a mark.
    Marked(K),
}

impl<K: Copy> Slot<K> {
    // The key in the slot, marked or not.
    pub fn key(&self) -> Option<K>
        ensures { result ≡ key_of self.now }
    {
        match self {
            Slot::Empty => None,
            Slot::Plain(key) | Slot::Marked(key) => Some(*key),
        }
    }

    // Whether the slot holds a marked key.
    pub fn has_mark(&self) -> bool
        ensures { result ≡ is_marked self.now }
    {
        matches!(self, Slot::Marked(_))
    }

    // The slot without its mark.
    pub fn without_mark(self) -> Slot<K>
        ensures { result ≡ plain self }
    {
        match self {
            Slot::Marked(key) => Slot::Plain(key),
            other => other,
        }
    }
}
