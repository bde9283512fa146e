//! What plain words ask for.
ghost use Rattle.std.specs.Prelude.{◌≡◌, ◌<◌, ◌≤◌, ◌^◌, ℕ, Bool, true, List, [], ◌∷◌, Some, None, Ok, codes, decimal};
ghost use Rattle.mon_words.specs.Plain.{IsPlain, plain_part, plain_values};
ghost use Rattle.mon_words.specs.Values.{words_of};
ghost use Rattle.mon_words.specs.declared.command.Command.TheVariants.{Total, Central, Measure, Place, Check, Child, Drill};
ghost use Rattle.mon_words.specs.declared.part.Part.TheVariants.{Trace, Topology};

/// `total NAME`, `central NAME`, `central NAME --epoch SECONDS`, `check NAME NAME`, `child`, `generate trace`,
/// `generate topology` and, where all commands are known, `measure NAME NAME`, `place NAME` and `drill`, with names that
/// don't begin with a hyphen and seconds from 1 to 2^32 - 1, ask for that command with these names, seconds and part,
/// and else the defaults.
pub fn plain_words()
    ensures total { (all : Bool) (name : List ℕ) → IsPlain name →
        words_of all (codes "total" ∷ name ∷ []) ≡ Ok (plain_values Total (name ∷ []) None) }
    ensures central { (all : Bool) (name : List ℕ) → IsPlain name →
        words_of all (codes "central" ∷ name ∷ []) ≡ Ok (plain_values Central (name ∷ []) None) }
    ensures epoch { (all : Bool) (name : List ℕ) (seconds : ℕ) → IsPlain name → 1 ≤ seconds → seconds < 2 ^ 32 →
        words_of all (codes "central" ∷ name ∷ codes "--epoch" ∷ decimal seconds ∷ [])
        ≡ Ok (plain_values Central (name ∷ []) (Some seconds)) }
    ensures check { (all : Bool) (topology tree : List ℕ) → IsPlain topology → IsPlain tree →
        words_of all (codes "check" ∷ topology ∷ tree ∷ []) ≡ Ok (plain_values Check (topology ∷ tree ∷ []) None) }
    ensures child { (all : Bool) → words_of all (codes "child" ∷ []) ≡ Ok (plain_values Child [] None) }
    ensures place { (name : List ℕ) → IsPlain name →
        words_of true (codes "place" ∷ name ∷ []) ≡ Ok (plain_values Place (name ∷ []) None) }
    ensures measure { (topology trace : List ℕ) → IsPlain topology → IsPlain trace →
        words_of true (codes "measure" ∷ topology ∷ trace ∷ [])
        ≡ Ok (plain_values Measure (topology ∷ trace ∷ []) None) }
    ensures drill { words_of true (codes "drill" ∷ []) ≡ Ok (plain_values Drill [] None) }
    ensures generate_trace { (all : Bool) →
        words_of all (codes "generate" ∷ codes "trace" ∷ []) ≡ Ok (plain_part Trace) }
    ensures generate_topology { (all : Bool) →
        words_of all (codes "generate" ∷ codes "topology" ∷ []) ≡ Ok (plain_part Topology) }
{}
