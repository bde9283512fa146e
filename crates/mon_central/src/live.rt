//! How many packets are live at each level, and what they weigh.
ghost use Rattle.std.specs.Prelude.{◌≡◌, ◌+◌, ◌≤◌, ◌^◌, ℕ, List, All, length};
ghost use Rattle.spot_table.specs.Live.{IsLiveAt};
ghost use Rattle.mon_central.specs.Live.{CountsLive};

/// Counts so many more packets, and their weight, at each level where their key is live: the first ones, so many.
pub(crate) fn count_live(
    levels: u8,
    packets: u32,
    weight: u64,
    live: &mut [u32],
    weights: &mut [u64],
)
    requires number { length live.old ≤ 17 }
    requires same { length weights.old ≡ length live.old }
    requires room { All (λ count. count + packets ≤ 4294967295) live.old }
    requires light { All (λ sum. sum + weight ≤ 2 ^ 44) weights.old }
    ensures live { (seed top : ℕ) (key : List ℕ) → length live.old ≡ top + 1 → IsLiveAt seed top key levels
        → CountsLive seed key packets live.old live.new }
    ensures weights { (seed top : ℕ) (key : List ℕ) → length live.old ≡ top + 1 → IsLiveAt seed top key levels
        → CountsLive seed key weight weights.old weights.new }
{
    for level in 0..usize::from(levels).min(live.len()) {
        live[level] += packets;
        weights[level] += weight;
    }
}
