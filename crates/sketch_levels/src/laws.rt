//! What a level keeps of a list of items.
ghost use Rattle.std.specs.Prelude.{◌≡◌, ℕ, true, false, List, [], ◌∷◌, ◌++◌, All, length};
ghost use Rattle.hash_family.specs.Hash.{is_live};
ghost use Rattle.count_sketch.specs.Counters.{Item, counters_of};
ghost use Rattle.topk_heap.specs.Ranking.{best, with_score};
ghost use Rattle.sketch_levels.specs.Stands.{StandFor, ones};
ghost use Rattle.sketch_levels.specs.Items.{distinct_keys, live_items, weight_of};
ghost use Rattle.hash_family.specs.Setting.{Setting};
ghost use Rattle.sketch_levels.specs.Kept.{HasLastScore, is_dropped, kept, kept_keys, score};

/// Of a list followed by an item, a level keeps the best of the keys that it kept before and the item's key, with
/// the estimate that the item left; where the item's key isn't live there, it keeps what it kept before. So each
/// kept key has the estimate that its own last item left, and as long as the heap dropped no key, the kept keys are
/// all distinct keys that are live there. No code.
pub fn kept_keys_law()
    ensures none { (setting : Setting) (level : ℕ) → kept setting level (live_items setting.seed level []) ≡ [] }
    ensures live { (setting : Setting) (level : ℕ) (items : List Item) (item : Item)
        → is_live setting.seed level item.key ≡ true
        → kept setting level (live_items setting.seed level (items ++ item ∷ []))
        ≡ best setting.heap
        (with_score (kept setting level (live_items setting.seed level items)) item.key
        (score setting level (live_items setting.seed level (items ++ item ∷ [])) item.key)) }
    ensures dead { (setting : Setting) (level : ℕ) (items : List Item) (item : Item)
        → is_live setting.seed level item.key ≡ false
        → kept setting level (live_items setting.seed level (items ++ item ∷ []))
        ≡ kept setting level (live_items setting.seed level items) }
    ensures scores { (setting : Setting) (level : ℕ) (items : List Item)
        → All (HasLastScore setting level items) (kept setting level items) }
    ensures all { (setting : Setting) (level : ℕ) (items : List Item)
        → is_dropped setting (live_items setting.seed level items) ≡ false
        → kept_keys setting level (live_items setting.seed level items)
        ≡ distinct_keys (live_items setting.seed level items) }
{}

/// Items that stand for others have their counters, their weight and their distinct keys, at each level. Items that
/// stand for those of weight 1 weigh as much as there are. No code.
pub fn standing_law()
    ensures counters { (entries items : List Item) (seed level rows width : ℕ) → StandFor entries items
        → counters_of seed level rows width (live_items seed level entries)
        ≡ counters_of seed level rows width (live_items seed level items) }
    ensures weight { (entries items : List Item) (seed level : ℕ) → StandFor entries items
        → weight_of (live_items seed level entries) ≡ weight_of (live_items seed level items) }
    ensures keys { (entries items : List Item) (seed level : ℕ) → StandFor entries items
        → distinct_keys (live_items seed level entries) ≡ distinct_keys (live_items seed level items) }
    ensures number { (entries items : List Item) (seed level : ℕ) → StandFor entries (ones items)
        → weight_of (live_items seed level entries) ≡ length (live_items seed level items) }
{}
