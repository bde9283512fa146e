//! The heads of replies as bytes, in version 2.
ghost use Rattle.std.specs.Prelude.{◌≡◌};
ghost use Rattle.hash_family.specs.Setting.{setting_of};
ghost use Rattle.reply_format.specs.Reply.{front_bytes, head_bytes, head_of};

use hash_family::Params;

/// The bytes of a replay reply's head.
pub(crate) fn head_bytes(number: u32, params: &Params, items: u32, weight: u64) -> [u8; 28]
    ensures { result ≡ head_bytes 2 (head_of number (setting_of params.now) items weight) }
{
    let [a, b, c, d] = number.to_le_bytes();
    let [e, f] = params.width.to_le_bytes();
    let [g, h] = params.heap.to_le_bytes();
    let [i, j, k, l] = items.to_le_bytes();
    let [m, n, o, p, q, r, s, t] = weight.to_le_bytes();
    [
        0x55,
        0x4d,
        0x52,
        0x50,
        2,
        0,
        a,
        b,
        c,
        d,
        params.levels,
        params.rows,
        e,
        f,
        g,
        h,
        i,
        j,
        k,
        l,
        m,
        n,
        o,
        p,
        q,
        r,
        s,
        t,
    ]
}

/// The bytes of a solve reply's front.
pub(crate) fn front_bytes(number: u32) -> [u8; 10]
    ensures { result ≡ front_bytes 2 1 number }
{
    let [a, b, c, d] = number.to_le_bytes();
    [0x55, 0x4d, 0x52, 0x50, 2, 1, a, b, c, d]
}
