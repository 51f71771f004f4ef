//! Copies as much as fits.
ghost use Rattle.std.specs.Prelude.{◌≡◌, ◌++◌, length, take, drop, min};

/// Copies the first bytes of `rest` into the front of `buf`: as many as fit, and at most `most`. Returns their number.
pub fn copy_prefix(rest: &[u8], buf: &mut [u8], most: usize) -> usize
    ensures count { result ≡ min (min (length buf.old) (length rest.now)) most }
    ensures copied { buf.new ≡ take result rest.now ++ drop result buf.old }
{
    let count = buf.len().min(rest.len()).min(most);
    buf[..count].copy_from_slice(&rest[..count]);
    count
}
