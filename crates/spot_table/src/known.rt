//! What is known of a key.
ghost use Rattle.std.specs.Prelude.{◌≡◌, ℕ, ◌+◌, ◌<◌, ◌≤◌, List};
ghost use Rattle.hash_family.specs.Setting.{Setting, setting_of};
ghost use Rattle.count_sketch.specs.Spots.{AreSpots};
ghost use Rattle.spot_table.specs.Live.{IsLiveAt};
ghost use Rattle.spot_table.specs.Known.{IsKnown, live_levels, HasSpots};

use count_sketch::Spots;
use flow_keys::FlowKey;
use hash_family::{Family, Params};

// The spots of so many levels are kept: of sixteen keys about one is live above them.
const KEPT: usize = 4;

/// What is known of a key: at how many levels it is live, and where it counts in the lowest of them.
#[derive(Clone, Copy, Debug)]
pub struct Known {
    live: u8,
    levels: [Spots; KEPT],
}

impl Known {
    /// At how many levels, from 0 on, the key is live.
    #[inline]
    pub fn live(&self) -> u8
        ensures number { result ≡ live_levels self.now }
        ensures live { (setting : Setting) (key : List ℕ) → IsKnown setting key self.now
            → IsLiveAt setting.seed setting.levels key result }
    {
        self.live
    }

    /// Where the key counts at a level from 0 to 3. They are the key's spots where it is live there.
    #[inline]
    pub fn spots(&self, level: u8) -> &Spots
        requires { level < 4 }
        ensures spots { (setting : Setting) (key : List ℕ) → IsKnown setting key self.now → level < live_levels self.now
            → AreSpots setting.seed level setting.rows setting.width key result.now }
    {
        &self.levels[usize::from(level)]
    }

    // What the hash functions say of the key.
    pub(crate) fn of(params: &Params, family: &Family, key: &FlowKey) -> Known
        requires { family.now ≡ params.now.seed }
        ensures known { IsKnown (setting_of params.now) key.now result }
    {
        let live = live_up_to(family, params.levels, key);
        let levels = spots_of_levels(params, family, key, live);
        Known { live, levels }
    }
}

// At how many levels, from 0 up to the highest, the key is live.
fn live_up_to(family: &Family, top: u8, key: &FlowKey) -> u8
    requires { top ≤ 16 }
    ensures live { IsLiveAt family.now top key.now result }
    ensures few { result ≤ top + 1 }
{
    for below in 0..top {
        if !family.sample(below + 1, key) {
            return below + 1;
        }
    }
    top + 1
}

// The key's spots at the lowest levels of those at which it is live.
fn spots_of_levels(params: &Params, family: &Family, key: &FlowKey, live: u8) -> [Spots; KEPT]
    requires { live ≤ 17 }
    ensures spots { HasSpots family.now params.now.rows params.now.width key.now live result }
{
    let mut levels = [Spots::none(); KEPT];
    for level in 0..live.min(KEPT as u8) {
        levels[usize::from(level)] = Spots::of(params.rows, params.width, family, level, key);
    }
    levels
}
