//! Counters that lie one level after another.
ghost use Rattle.std.specs.Prelude.{◌≡◌, ◌≤◌, ◌+◌, ◌*◌, drop, length, take};

// The counters of a level, where each level has so many.
#[inline]
pub(crate) fn level_of(counters: &[i64], level: usize, size: usize) -> &[i64]
    requires { (level + 1) * size ≤ length counters.now }
    ensures value { result.now ≡ take size (drop (level * size) counters.now) }
{
    let start = level * size;
    &counters[start..start + size]
}
