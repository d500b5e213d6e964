//! How the objects in memory copy their bytes into the caller's buffer.
ghost use Rattle.std.specs.Prelude.{◌≡◌, length, min, take};

/// Copies bytes to the start of `into` and returns how many: as many as there are and fit, but at most `most`.
pub(crate) fn copy_prefix(bytes: &[u8], most: usize, into: &mut [u8]) -> usize
    ensures count { result ≡ min most (min (length into.old) (length bytes.now)) }
    ensures copied { take result into.new ≡ take result bytes.now }
{
    let count = most.min(into.len().min(bytes.len()));
    into[..count].copy_from_slice(&bytes[..count]);
    count
}
