// Bytes from one buffer to the front of another.
ghost use Rattle.std.specs.Prelude.{◌≡◌, length, take, drop, min};

/// Copies as many bytes as both have, and answers how many.
pub(crate) fn copy_front(from: &[u8], into: &mut [u8]) -> usize
    ensures count { result ≡ min (length from.now) (length into.old) }
    ensures front { take result into.new ≡ take result from.now }
    ensures rest { drop result into.new ≡ drop result into.old }
{
    let count = from.len().min(into.len());
    into[..count].copy_from_slice(&from[..count]);
    count
}
