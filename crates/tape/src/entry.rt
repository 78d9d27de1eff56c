// An entry as it is read.
use records::Record;

// A record and the container it is in.
#[derive(Clone, Copy)]
pub(crate) struct Entry<'a, F> {
    pub container: usize,
    pub stored: Record<'a, F>,
}

// How many records a container has, and how many payload bytes they have.
#[derive(Clone, Copy)]
pub(crate) struct Tally {
    pub records: usize,
    pub payload: usize,
}
