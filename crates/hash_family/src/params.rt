//! The numbers of a sketch.
ghost use Rattle.std.specs.Prelude.{◌≡◌, ◌↔◌, IsSome, IfSome, IsTrue};
ghost use Rattle.hash_family.specs.Limits.{are_within, is_width};

/// The numbers of a sketch: its highest level (0 to 16), rows (1, 3, 5 or 7) and counters in a row
/// (a power of two from 16 to 2,048) of each level, keys in a level's heap (1 to 1,024), and seed.
#[derive(Clone, Copy, Debug, PartialEq, Eq)]
pub struct Params {
    pub levels: u8,
    pub rows: u8,
    pub width: u16,
    pub heap: u16,
    pub seed: u64,
    pub ghost within: { IsTrue (are_within levels rows width heap) },
}

impl Params {
    /// These numbers, None exactly where one of them is outside its limits. Takes no memory.
    pub fn new(levels: u8, rows: u8, width: u16, heap: u16, seed: u64) -> Option<Params>
        ensures limits { IsSome result ↔ IsTrue (are_within levels rows width heap) }
        ensures levels { IfSome result (λ params. params.levels ≡ levels) }
        ensures rows { IfSome result (λ params. params.rows ≡ rows) }
        ensures width { IfSome result (λ params. params.width ≡ width) }
        ensures heap { IfSome result (λ params. params.heap ≡ heap) }
        ensures seed { IfSome result (λ params. params.seed ≡ seed) }
    {
        let shape = levels <= 16 && matches!(rows, 1 | 3 | 5 | 7) && is_width(width);
        if shape && heap >= 1 && heap <= 1024 {
            Some(Params {
                levels,
                rows,
                width,
                heap,
                seed,
            })
        } else {
            None
        }
    }
}

// A power of two from 16 to 2,048.
fn is_width(width: u16) -> bool
    ensures { result ≡ is_width width }
{
    matches!(width, 16 | 32 | 64 | 128 | 256 | 512 | 1024 | 2048)
}
