// The name of a sheet.
ghost use Rattle.std.specs.Prelude.{◌≤◌, length};

use arrayvec::ArrayString;

// 1 to 16 bytes from 21 to 7E (hexadecimal), which lie in the value itself.
#[derive(Clone, Copy)]
pub struct Name {
    pub(crate) text: ArrayString<16>,
    // What a contract sees of a text does not tell how many bytes it has at most.
    ghost fits: { length text.bytes ≤ 16 },
}
