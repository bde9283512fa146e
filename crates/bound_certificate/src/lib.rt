//! Certificates of a least cost: a placement problem, and trees that prove a bound below every placement's cost.
//!
//! - `site`, `need`, `problem`, `within`: `Site`, `Need` and `Problem`, what is placed and where it can be, and the
//!   limits of a problem as a test
//! - `placement`: `Placement`, a site for each need; whether it fits, its cost, and the first fit
//! - `numbers`: a list of up to 64 numbers that takes no memory; `choices`, `completion`: the sites chosen for the
//!   first needs, what they carry and cost, and how the first fit goes on from them
//! - `tree`, `formed`: `Tree`, and its limits as a test
//! - `hall`, `dual`, `node`: the test of one node; `tally`, `checker`: `check`, of a whole tree, which gives a
//!   `verdict`
//! - `outcome`, `floors`, `explored`, `judge`: what a search found, and `check_outcome`, which judges it; `laws`: what
//!   holds of every tree and every outcome
//!
//! `specs/Placement.antt` says cost and fitting as sums over needs and sites, `specs/Node.antt` when a node is
//! wrong, `specs/Tree.antt` a tree as the list of its nodes in preorder, and `specs/Outcome.antt` which outcome is
//! right. `check` carries weak duality: no placement that fits costs less than the bound. Only `first_fit` takes
//! memory. The tests of one node are public for a search that makes trees.
#![tactic(auto)]

mod checker;
mod choices;
mod completion;
mod dual;
mod explored;
mod floors;
mod formed;
mod hall;
mod judge;
mod laws;
mod need;
mod node;
mod numbers;
mod outcome;
mod placement;
mod problem;
mod site;
mod tally;
mod tree;
mod verdict;
mod within;

pub use checker::check;
pub use choices::cost_of;
pub use completion::complete;
pub use dual::{dual_breach, dual_limit, dual_value};
pub use floors::floor_by;
pub use formed::{are_names, is_formed};
pub use hall::{is_crowded, is_hall_set, later};
pub use judge::check_outcome;
pub use laws::{bounds_are_below, least_is_reached, right_outcomes_show};
pub use need::Need;
pub use node::is_over;
pub use numbers::{Numbers, has};
pub use outcome::{Outcome, OutcomeFault};
pub use placement::{Placement, cost, first_fit, fits};
pub use problem::Problem;
pub use site::Site;
pub use tree::{Tree, children};
pub use verdict::{TreeFault, TreeWhy, Verdict};
pub use within::is_within;
