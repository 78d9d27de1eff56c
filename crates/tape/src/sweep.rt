// Erasing a container from a log.
ghost use Rattle.std.specs.Prelude.{◌≡◌, ◌+◌, ◌≤◌, length, drop, slice_index};
ghost use Rattle.tape.specs.Log.{Logged, log_of, log_before, log_size, length_at, without};

// How many entries a log has, and how many bytes they take, as a tape keeps them.
#[derive(Clone, Copy)]
pub(crate) struct Extent {
    pub entries: usize,
    pub used: usize,
}

// The container of the entry at `at`, and where the next one begins.
fn head_at(bytes: &[u8], width: usize, at: usize) -> (usize, usize)
    requires { at + (width + 4 + length_at (drop at bytes.now)) ≤ length bytes.now }
    ensures container { result.0 ≡ slice_index (drop at bytes.now) 0 }
    ensures next { result.1 ≡ at + (width + 4 + length_at (drop at bytes.now)) }
{
    let len = usize::from(u16::from_le_bytes([bytes[at + 2], bytes[at + 3]]));
    (usize::from(bytes[at]), at + (width + 4 + len))
}

// Moves the entries of all other containers down over those of one, and tells what is left.
pub(crate) fn sweep(bytes: &mut [u8], width: usize, entries: usize, container: usize) -> Extent
    requires { Logged width entries bytes.old }
    ensures entries { result.entries ≡ length (without container (log_of width entries bytes.old)) }
    ensures used { result.used ≡ log_size width (without container (log_of width entries bytes.old)) }
    ensures after { bytes.new ≡ log_before (without container (log_of width entries bytes.old)) (drop result.used bytes.new) }
{
    // Counted by places: an iterator would borrow the bytes that the walk writes to.
    let mut at = 0;
    let mut count = 0;
    let mut used = 0;
    for _ in 0..entries {
        let (here, next) = head_at(bytes, width, at);
        if here != container {
            bytes.copy_within(at..next, used);
            count += 1;
            used += next - at;
        }
        at = next;
    }
    Extent {
        entries: count,
        used,
    }
}
