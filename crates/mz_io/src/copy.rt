ghost use Rattle.std.specs.Prelude.{◌≡◌, ◌≤◌, ◌++◌, length, take, drop, min};

/// Copies as many bytes as there are, and at most `most`, to the front of `buf`.
pub(crate) fn copy_front(from: &[u8], buf: &mut [u8], most: usize) -> usize
    requires { most ≤ length buf.old }
    ensures count { result ≡ min most (length from.now) }
    ensures front { take result buf.new ≡ take result from.now }
    ensures buffer { buf.new ≡ take result from.now ++ drop result buf.old }
{
    let count = most.min(from.len());
    buf[..count].copy_from_slice(&from[..count]);
    count
}
