ghost use Rattle.std.specs.Prelude.{◌≡◌, length, take, min};

/// Copies the front of `from` to the front of `into`, as far as both go, and says how far that is.
pub fn copy_front(from: &[u8], into: &mut [u8]) -> usize
    ensures count { result ≡ min (length from.now) (length into.old) }
    ensures copied { take result into.new ≡ take result from.now }
    ensures same_length { length into.new ≡ length into.old }
{
    let n = from.len().min(into.len());
    into[..n].copy_from_slice(&from[..n]);
    n
}
