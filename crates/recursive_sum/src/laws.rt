//! Where the recursive sum is the plain sum.
ghost use Rattle.std.specs.Prelude.{◌≡◌, ℕ, ℤ, List};
ghost use Rattle.count_sketch.specs.Counters.{int_sum_by};
ghost use Rattle.sketch_merge.specs.Merged.{View, keys_at};
ghost use Rattle.recursive_sum.specs.Sum.{g_of, recursive_sum, IsClear};
ghost use Rattle.recursive_sum.specs.declared.measure.G.{G};

/// Where each level names exactly the keys of level 0 that are live there, and the estimate of a key is one number
/// at each of its levels, the recursive sum is the sum of what the numbers of the keys of level 0 count. No code.
pub fn plain_sum()
    ensures plain { (seed : ℕ) (g : G) (view : View) (number : List ℕ → ℤ) → IsClear seed view number
        → recursive_sum seed g view ≡ int_sum_by (λ key. g_of g (number key)) (keys_at view 0) }
{}
