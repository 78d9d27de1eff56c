// What the calls of a store hand out.

// Says that one reading of a sheet is out: the store's number, the sheet's entry in the catalogue, and the position of the cursor.
// It cannot be let go: only the call that returns it takes it for good.
pub struct ReadToken {
    pub(crate) number: u32,
    pub(crate) sheet: usize,
    pub(crate) position: u64,
}

// A record that was put: its fingerprint, which it has either way, and whether it was not stored before.
#[derive(Clone, Copy, Debug, PartialEq, Eq)]
pub struct Stored<F> {
    pub fingerprint: F,
    pub is_new: bool,
}
