//! What holds of every tree, of every outcome, and of every least number.
ghost use Rattle.std.specs.Prelude.{◌≡◌, ◌≤◌, ◌<◌, ℕ, List, [], None, Ok, IsTrue, length, slice_index};
ghost use Rattle.bound_certificate.specs.Problem.{Problem};
ghost use Rattle.bound_certificate.specs.Limits.{IsWithin};
ghost use Rattle.bound_certificate.specs.Placement.{fits, cost};
ghost use Rattle.bound_certificate.specs.Tree.{visits, first_fault, bound_of, verdict_of};
ghost use Rattle.bound_certificate.specs.Bound.{IsBelow};
ghost use Rattle.bound_certificate.specs.Floor.{least_by};
ghost use Rattle.bound_certificate.specs.Outcome.{tree_of, judgement, is_right};
ghost use Rattle.bound_certificate.specs.Meaning.{Shows, NoneFits};
ghost use Rattle.bound_certificate.specs.declared.outcome.Outcome.{Outcome};
ghost use Rattle.bound_certificate.specs.declared.tree.Tree.{Tree};
ghost use Rattle.bound_certificate.specs.declared.verdict.Verdict.{Verdict};

/// A tree without a wrong node has its bound below the cost of every placement that fits; where it has no bound,
/// none fits.
pub fn bounds_are_below()
    ensures below { (p : Problem) (tree : Tree) (placement : List ℕ) → IsWithin p.sites p.needs →
        first_fault p 0 (visits p tree []) ≡ None → IsTrue (fits p placement) →
        IsBelow (bound_of p (visits p tree [])) (cost p placement) }
    ensures none { (p : Problem) (tree : Tree) → IsWithin p.sites p.needs →
        first_fault p 0 (visits p tree []) ≡ None → bound_of p (visits p tree []) ≡ None → NoneFits p }
{}

/// An outcome that is judged without a fault shows what a right outcome shows, with the verdict that it is given. A
/// right outcome is judged so, with the verdict of its tree.
pub fn right_outcomes_show()
    ensures judged { (p : Problem) (nodes : ℕ) (outcome : Outcome) (verdict : Verdict) →
        IsWithin p.sites p.needs → judgement p nodes outcome ≡ Ok verdict → Shows p nodes outcome verdict }
    ensures right { (p : Problem) (nodes : ℕ) (outcome : Outcome) → IsTrue (is_right p nodes outcome) →
        judgement p nodes outcome ≡ Ok (verdict_of p (visits p (tree_of outcome) [])) }
{}

/// The least number over a list with a member is that of one of its members, and no member's is less.
pub fn least_is_reached()
    ensures one { (f : ℕ → ℕ) (xs : List ℕ) → 0 < length xs →
        (place : ℕ) × (place < length xs) × (least_by f xs ≡ f (slice_index xs place)) }
    ensures least { (f : ℕ → ℕ) (xs : List ℕ) (place : ℕ) → place < length xs →
        least_by f xs ≤ f (slice_index xs place) }
{}
