//! Which keys are in the union of two lists, and what a reply adds to what others said.
ghost use Rattle.std.specs.Prelude.{◌≡◌, ◌↔◌, ◌⊎◌, ◌<◌, ◌+◌, ℕ, List, Option, None, Some, Contains, length};
ghost use Rattle.std.specs.Prelude.{slice_index_or, slice_set};
ghost use Rattle.std.specs.Cmp.Lexicographic.{slice_cmp};
ghost use Rattle.std.specs.Ordering.{nat_cmp};
ghost use Rattle.std.specs.List.Sorted.{IsStrictlySortedBy};
ghost use Rattle.hash_family.specs.Setting.{Setting};
ghost use Rattle.reply_format.specs.Reply.{IsReplayReply, ReplayReply};
ghost use Rattle.sketch_merge.specs.Merged.{united};
ghost use Rattle.sketch_merge.specs.Merging.{merged_view, present, with_reply};

/// The union of two lists has exactly the keys of either, and it ascends strictly where the first list does. No code.
pub fn united_keys_law()
    ensures members { (keys more : List (List ℕ)) (key : List ℕ)
        → Contains (united keys more) key ↔ (Contains keys key ⊎ Contains more key) }
    ensures ascending { (keys more : List (List ℕ))
        → IsStrictlySortedBy (slice_cmp nat_cmp) keys
        → IsStrictlySortedBy (slice_cmp nat_cmp) (united keys more) }
{}

/// Where jobs have places for their replies, a reply that comes into an empty place is merged by adding its counters
/// and its weight, uniting its keys and joining its marks: so the replies of all jobs say the same together in
/// whatever order they come. No code.
pub fn taken_reply_law()
    ensures taken { (setting : Setting) (places : List (Option ReplayReply)) (job weight : ℕ) (reply : ReplayReply)
        → job < length places → slice_index_or places job None ≡ None
        → IsReplayReply reply → reply.head.setting ≡ setting
        → with_reply (merged_view setting weight (present places)) reply
        ≡ merged_view setting (weight + reply.head.weight) (present (slice_set places job (Some reply))) }
{}
