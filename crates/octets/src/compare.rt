// Comparing rows of bytes.
ghost use Rattle.std.specs.Prelude.{◌≡◌};
ghost use Rattle.keys.specs.Octets.{same_bytes};

// Whether two rows of bytes are the same, in this repository's word for it.
pub fn same_bytes(first: &[u8], second: &[u8]) -> bool
    ensures { result ≡ same_bytes first.now second.now }
{
    first == second
}
