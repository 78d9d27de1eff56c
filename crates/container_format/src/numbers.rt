// Numbers in bytes, lowest byte first. Bytes past the end count as zero.
ghost use Rattle.std.specs.Prelude.{◌≡◌, ◌++◌, take, drop, replicate};
ghost use Rattle.keys.specs.Octets.{number};

// The bytes from `at` on.
fn tail(bytes: &[u8], at: usize) -> &[u8]
    ensures { result.now ≡ drop at bytes.now }
{
    bytes.get(at..).unwrap_or(&[])
}

// The N bytes at `at`.
fn bytes_at<const N: usize>(bytes: &[u8], at: usize) -> [u8; N]
    ensures { result ≡ take N (drop at bytes.now ++ replicate N 0) }
{
    let rest = tail(bytes, at);
    // As a rule there are so many; a copy of a length that is known is a load, and no call.
    if let Some((found, _)) = rest.split_first_chunk::<N>() {
        return *found;
    }
    let end = rest.len().min(N);
    let mut found = [0; N];
    (&mut found[..end]).copy_from_slice(&rest[..end]);
    found
}

// The number in the two bytes at `at`.
pub fn u16_at(bytes: &[u8], at: usize) -> usize
    ensures { result ≡ number (take 2 (drop at bytes.now)) }
{
    usize::from(u16::from_le_bytes(bytes_at(bytes, at)))
}

// The number in the four bytes at `at`.
pub fn u32_at(bytes: &[u8], at: usize) -> usize
    ensures { result ≡ number (take 4 (drop at bytes.now)) }
{
    u32::from_le_bytes(bytes_at(bytes, at)) as usize
}
