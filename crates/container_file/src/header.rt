// What is known of a container that is there.

// Which container it is, where it begins, and what its header says: how many records it has, and how many payload bytes they have.
#[derive(Clone, Copy)]
pub(crate) struct Header {
    pub container: usize,
    pub base: usize,
    pub records: usize,
    pub used: usize,
}
