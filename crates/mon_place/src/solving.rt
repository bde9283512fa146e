//! The numbers of a search, as words give them.
ghost use Rattle.std.specs.Prelude.{◌≡◌};
ghost use Rattle.mon_words.specs.Values.{IsInRange};
ghost use Rattle.mon_place.specs.Place.{solving_in};
ghost use Rattle.solve_phase.specs.Solving.{IsSolving};

use mon_words::Words;
use solve_phase::Solving;

/// The numbers of a search and of its children that the words give.
pub fn solving_of(words: &Words) -> Solving
    requires { IsInRange words.now }
    ensures value { result ≡ solving_in words.now }
    ensures limits { IsSolving result }
{
    Solving {
        nodes: words.nodes,
        window: words.window,
        restarts: words.restarts,
    }
}
