// A key's bytes as text.
use keys::Key;
use std::fmt;

// A key that prints as its bytes in hexadecimal, in the order in which they are stored.
#[derive(Clone, Copy)]
pub struct Hex<K>(pub K);

impl<K: Key> fmt::Display for Hex<K> {
    fn fmt<W: fmt::Write>(&self, f: &mut fmt::Formatter<W>) -> fmt::Result {
        // No key is wider, and printing allocates nothing.
        let mut bytes = [0u8; 20];
        let _ = self.0.write(&mut bytes);
        for byte in &bytes[..K::WIDE] {
            write!(f, "{byte:02x}")?;
        }
        Ok(())
    }
}
