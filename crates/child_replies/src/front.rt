//! The front of a reply, of either kind.
ghost use Rattle.std.specs.Prelude.{◌≡◌, ◌∷◌, [], ◌++◌, length, IfOk, IfErr, IfSome, IfNone};
ghost use Rattle.child_replies.specs.Fields.{Lacks, Takes, is_version};
ghost use Rattle.reply_format.specs.Places.{is_magic};
ghost use Rattle.reply_format.specs.declared.fault.ReplyFault.TheVariants as faults;

use crate::cursor::next_field;
use reply_format::ReplyFault;

/// The first four bytes, which are those of a reply, and what stands behind them.
pub(crate) fn magic(rest: &[u8]) -> Result<(&[u8], &[u8]), ReplyFault>
    ensures on { IfOk result (λ found. Takes 4 is_magic rest.now found.0.now found.1.now) }
    ensures fault { IfErr result (λ fault. Lacks 4 is_magic faults.Magic rest.now fault) }
{
    let Some((field, after)) = next_field(rest, 4) else {
        return Err(ReplyFault::Short);
    };
    if is_magic(field) {
        Ok((field, after))
    } else {
        Err(ReplyFault::Magic)
    }
}

fn is_magic(field: &[u8]) -> bool
    requires { length field.now ≡ 4 }
    ensures { result ≡ is_magic field.now }
{
    field[0] == 0x55 && field[1] == 0x4d && field[2] == 0x52 && field[3] == 0x50
}

/// The version, 1 or 2, and what stands behind it.
pub(crate) fn version(rest: &[u8]) -> Result<(u8, &[u8]), ReplyFault>
    ensures on { IfOk result (λ found. Takes 1 is_version rest.now (found.0 ∷ []) found.1.now) }
    ensures fault { IfErr result (λ fault. Lacks 1 is_version faults.Version rest.now fault) }
{
    let Some((version, after)) = next_byte(rest) else {
        return Err(ReplyFault::Short);
    };
    if version == 1 || version == 2 {
        Ok((version, after))
    } else {
        Err(ReplyFault::Version)
    }
}

/// The next byte, and what stands behind it; None exactly where none is left.
pub(crate) fn next_byte(rest: &[u8]) -> Option<(u8, &[u8])>
    ensures parts { IfSome result (λ found. rest.now ≡ found.0 ∷ found.1.now) }
    ensures short { IfNone result (rest.now ≡ []) }
{
    match rest.split_first() {
        Some((byte, after)) => Some((*byte, after)),
        None => None,
    }
}
