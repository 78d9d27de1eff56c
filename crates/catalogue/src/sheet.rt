// A sheet that is kept.
use crate::name::Name;

// A tree by its root, kept under a name, and how many readings of it are out.
#[derive(Clone, Copy)]
pub struct Sheet<F> {
    pub name: Name,
    pub root: F,
    // A number as wide as callers may give; a catalogue takes in those that a byte counts.
    pub readings: usize,
}
