// The calls of a catalogue.
ghost use Rattle.std.specs.Prelude.{◌≡◌, ◌≤◌, ◌↔◌, All, IsTrue, length, replicate, None, slice_index_or, slice_set};
ghost use Rattle.catalogue.specs.Sheets.{Counted, kept_of, kept_all, entry_of, vacant_entry, readings_of, readings_out};

use crate::entries::Catalogue;
use crate::search::{find, vacancy};
use crate::sheet::Sheet;
use keys::Key;

// How many readings of an entry's sheet are out.
fn readings_of<F: Key>(entry: Option<Sheet<F>>) -> u8
    requires { Counted entry }
    ensures { result ≡ readings_of (kept_of F.Key.bytes entry) }
{
    entry.map_or(0, |sheet| sheet.readings as u8)
}

// Whether a byte counts the readings of an entry's sheet.
fn is_counted<F: Copy>(entry: Option<Sheet<F>>) -> bool
    ensures { IsTrue result ↔ Counted entry }
{
    entry.is_none_or(|sheet| sheet.readings < 256)
}

// What stands at an entry; nothing past the last one.
fn sheet_in<F: Key>(entries: &[Option<Sheet<F>>], entry: usize) -> Option<Sheet<F>>
    requires { All Counted entries.now }
    ensures kept { kept_of F.Key.bytes result ≡ slice_index_or (kept_all F.Key.bytes entries.now) entry None }
    ensures counted { Counted result }
{
    entries.get(entry).copied().flatten()
}

// How many readings of the sheets of at most 64 entries are out.
fn readings_in<F: Key>(entries: &[Option<Sheet<F>>]) -> usize
    requires few { length entries.now ≤ 64 }
    requires counted { All Counted entries.now }
    ensures { result ≡ readings_out (kept_all F.Key.bytes entries.now) }
{
    // A loop, since a closure of a chain would not know that a byte counts the readings.
    let mut out = 0;
    for entry in entries {
        out += usize::from(readings_of(*entry));
    }
    out
}

impl<F: Key> Catalogue<F> {
    // A catalogue without sheets.
    pub fn new() -> Self
        ensures { kept_all F.Key.bytes result.entries ≡ replicate 64 None }
    {
        Catalogue {
            entries: [None; 64],
        }
    }

    // All entries, first to last.
    pub fn sheets(&self) -> &[Option<Sheet<F>>]
        ensures { result.now ≡ self.now.entries }
    {
        &self.entries
    }

    // The first entry that has a sheet of this name, if any.
    pub fn entry_of(&self, name: &[u8]) -> Option<usize>
        ensures { result ≡ entry_of (λ k. k.name) name.now (kept_all F.Key.bytes self.now.entries) }
    {
        find(&self.entries, name)
    }

    // The first empty entry, if any.
    pub fn vacant_entry(&self) -> Option<usize>
        ensures { result ≡ vacant_entry (kept_all F.Key.bytes self.now.entries) }
    {
        vacancy(&self.entries)
    }

    // What stands at an entry; nothing past the last one. A byte counts its readings that are out.
    pub fn sheet(&self, entry: usize) -> Option<Sheet<F>>
        ensures kept { kept_of F.Key.bytes result ≡ slice_index_or (kept_all F.Key.bytes self.now.entries) entry None }
        ensures counted { Counted result }
    {
        sheet_in(&self.entries, entry)
    }

    // How many readings of the sheet at an entry are out.
    pub fn readings(&self, entry: usize) -> u8
        ensures { result ≡ readings_of (slice_index_or (kept_all F.Key.bytes self.now.entries) entry None) }
    {
        readings_of(self.sheet(entry))
    }

    // Puts a sheet at an entry, or takes away what stands there. Past the last entry nothing changes, nor for a sheet with more readings than a byte counts.
    pub fn put(&mut self, entry: usize, sheet: Option<Sheet<F>>)
        ensures counted { Counted sheet → kept_all F.Key.bytes self.new.entries ≡ slice_set (kept_all F.Key.bytes self.old.entries) entry (kept_of F.Key.bytes sheet) }
        ensures uncounted { ¬ Counted sheet → self.new.entries ≡ self.old.entries }
    {
        // By index: `get_mut` does not say what the table ends as.
        if is_counted(sheet) && entry < self.entries.len() {
            self.entries[entry] = sheet;
        }
    }

    // How many readings are out in all.
    pub fn readings_out(&self) -> usize
        ensures { result ≡ readings_out (kept_all F.Key.bytes self.now.entries) }
    {
        readings_in(&self.entries)
    }
}
