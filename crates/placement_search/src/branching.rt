//! The tree below a node, by recursion.
ghost use Rattle.std.specs.Prelude.{◌≡◌, ◌<◌, ◌≤◌, [], ◌∷◌, ◌++◌, length, IfOk, IsTrue};
ghost use Rattle.bound_certificate.specs.Problem.{need_count, via};
ghost use Rattle.bound_certificate.specs.Placement.{AreChoices};
ghost use Rattle.bound_certificate.specs.Sums.{has};
ghost use Rattle.placement_search.specs.Kept.{IsKept, IsRoomy};
ghost use Rattle.placement_search.specs.Searched.{IsTreeSearched, AreSearched};

use crate::leaf::leaf_at;
use crate::progress::Progress;
use bound_certificate::{Numbers, Problem, Tree, is_over};
use mon_io::Memory;
use sqlite_items::Items;
use std::alloc::Global;

/// The tree below a node where no site is over, searched under the best placement so far.
#[cycle(branching)]
pub fn search_at(
    alloc: Global,
    problem: &Problem,
    choices: &Numbers,
    progress: &mut Progress,
) -> Result<Tree, Memory>
    requires choices { AreChoices problem.now choices.now }
    requires room { IsRoomy problem.now choices.now }
    requires kept { IsKept problem.now progress.old }
    ensures searched { IfOk result (IsTreeSearched problem.now choices.now progress.old progress.new) }
{
    progress.offer(problem, choices);
    let found = leaf_at(alloc, problem, choices, progress)?;
    if let Some(leaf) = found {
        return Ok(leaf);
    }
    progress.left -= 1;
    let children = search_children(alloc, problem, choices, progress)?;
    Ok(Tree::Branch(children))
}

// The trees of a node's children, in the order of the next need's via.
#[cycle(branching)]
fn search_children(
    alloc: Global,
    problem: &Problem,
    choices: &Numbers,
    progress: &mut Progress,
) -> Result<Items<Tree>, Memory>
    requires above { length choices.now < need_count problem.now }
    requires choices { AreChoices problem.now choices.now }
    requires room { IsRoomy problem.now choices.now }
    requires kept { IsKept problem.now progress.old }
    ensures size { IfOk result (λ children. length children ≡ length (via problem.now (length choices.now))) }
    ensures searched { IfOk result (AreSearched problem.now choices.now progress.old progress.new) }
{
    let mut children = Items::new(alloc);
    for site in problem.via(choices.len()) {
        let child = search_child(alloc, problem, choices, *site, progress)?;
        if children.push(child).is_err() {
            return Err(Memory);
        }
    }
    Ok(children)
}

// The tree of the child that gives the next need to this site.
#[cycle(branching)]
fn search_child(
    alloc: Global,
    problem: &Problem,
    choices: &Numbers,
    site: u8,
    progress: &mut Progress,
) -> Result<Tree, Memory>
    requires above { length choices.now < need_count problem.now }
    requires few { need_count problem.now ≤ 64 }
    requires site { IsTrue (has (via problem.now (length choices.now)) site) }
    requires choices { AreChoices problem.now choices.now }
    requires room { IsRoomy problem.now choices.now }
    requires kept { IsKept problem.now progress.old }
    ensures searched { IfOk result (IsTreeSearched problem.now (choices.now ++ site ∷ []) progress.old progress.new) }
{
    let child = choices.with(site);
    if is_over(problem, child.as_slice()) {
        return Ok(Tree::Over);
    }
    search_at(alloc, problem, &child, progress)
}
