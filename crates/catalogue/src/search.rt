// Names, and looking for a sheet or for an empty entry.
ghost use Rattle.std.specs.Prelude.{◌≡◌, if◌then◌else◌, Some, None};
ghost use Rattle.std.specs.List.{list_all};
ghost use Rattle.std.specs.Option.{option_map};
ghost use Rattle.keys.specs.Octets.{same_bytes};
ghost use Rattle.catalogue.specs.Names.{glyph, nameable, spelled};
ghost use Rattle.catalogue.specs.Sheets.{entry_of, vacant_entry};

use crate::name::Name;
use crate::sheet::Sheet;
use arrayvec::ArrayString;
use std::str;

// Whether a byte may stand in a name.
fn is_glyph(byte: u8) -> bool
    ensures { result ≡ glyph byte }
{
    (0x21..=0x7e).contains(&byte)
}

// Whether all bytes may stand in a name.
fn is_printable(bytes: &[u8]) -> bool
    ensures { result ≡ list_all glyph bytes.now }
{
    bytes.iter().all(|byte| is_glyph(*byte))
}

// Whether some bytes may be a name.
pub fn is_nameable(bytes: &[u8]) -> bool
    ensures { result ≡ nameable bytes.now }
{
    (1..=16).contains(&bytes.len()) && is_printable(bytes)
}

impl Name {
    // The name of some bytes, if they may be one.
    pub fn of(bytes: &[u8]) -> Option<Name>
        ensures { option_map spelled result ≡ (if nameable bytes.now then Some bytes.now else None) }
    {
        if !is_nameable(bytes) {
            return None;
        }
        let spelling = str::from_utf8(bytes).ok()?;
        let text = ArrayString::from(spelling).ok()?;
        Some(Name { text })
    }

    // Whether it has these bytes.
    pub fn spells(&self, bytes: &[u8]) -> bool
        ensures { result ≡ same_bytes (spelled self.now) bytes.now }
    {
        self.text.as_str().as_bytes() == bytes
    }
}

// The first entry that has a sheet of this name, if any.
pub fn find<F: Copy>(sheets: &[Option<Sheet<F>>], name: &[u8]) -> Option<usize>
    ensures { result ≡ entry_of (λ s. spelled s.name) name.now sheets.now }
{
    sheets
        .iter()
        .position(|entry| entry.is_some_and(|sheet| sheet.name.spells(name)))
}

// The first empty entry, if any.
pub fn vacancy<F: Copy>(sheets: &[Option<Sheet<F>>]) -> Option<usize>
    ensures { result ≡ vacant_entry sheets.now }
{
    sheets.iter().position(|entry| entry.is_none())
}
