//! The next field of bytes.
ghost use Rattle.std.specs.Prelude.{◌≡◌, ◌<◌, ◌^◌, ◌++◌, length, All, IfSome, IfNone};

/// The next field of so many bytes, and what stands behind it; None exactly where fewer are left.
pub(crate) fn next_field(rest: &[u8], size: usize) -> Option<(&[u8], &[u8])>
    ensures parts { IfSome result (λ found. rest.now ≡ found.0.now ++ found.1.now) }
    ensures whole { IfSome result (λ found. length found.0.now ≡ size) }
    ensures short { IfNone result (length rest.now < size) }
{
    if rest.len() < size {
        return None;
    }
    Some(rest.split_at(size))
}

/// Each byte is below 256, as its type says.
pub(crate) fn check_bytes(bytes: &[u8])
    ensures { All (λ byte. byte < 256) bytes.now }
{
    let _ = bytes.len();
}
