//! The front of a slice.
ghost use Rattle.std.specs.Prelude.{◌≡◌, length, min, take};

/// Copies the front of `rest` into the front of `buf`, as much as there is or fits.
pub(crate) fn copy_front(rest: &[u8], buf: &mut [u8]) -> usize
    ensures count { result ≡ min (length rest.now) (length buf.new) }
    ensures copied { take result buf.new ≡ take result rest.now }
{
    let count = rest.len().min(buf.len());
    buf[..count].copy_from_slice(&rest[..count]);
    count
}
