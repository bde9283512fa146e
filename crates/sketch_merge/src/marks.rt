//! Marks of dropped keys.
ghost use Rattle.std.specs.Prelude.{◌≡◌, ◌||◌};
ghost use Rattle.std.specs.List.{list_any};

use reply_format::Heap;

// Whether a mark is set, or some heap dropped a key.
pub(crate) fn joined_mark(mark: bool, heaps: &[Heap]) -> bool
    ensures value { result ≡ (mark || list_any (λ heap. heap.dropped) heaps.now) }
{
    mark || has_dropped(heaps)
}

// Whether some heap dropped a key.
fn has_dropped(heaps: &[Heap]) -> bool
    ensures value { result ≡ list_any (λ heap. heap.dropped) heaps.now }
{
    heaps.iter().any(|heap| heap.dropped)
}
