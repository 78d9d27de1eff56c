// Which container takes new records.

// The container that is being filled, if any, and the one that was opened last.
#[derive(Clone, Copy, Debug, Default, PartialEq, Eq)]
pub struct Filling {
    pub current: Option<usize>,
    pub last: usize,
}
