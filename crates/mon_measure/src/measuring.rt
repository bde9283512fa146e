//! The numbers of a measure.

use mon_call::Setting;
use solve_phase::Solving;

/// The numbers of the sketches and of what is printed of them, those of the search and of its children, and whether the
/// few lines are written that name no path, no switch and no key. A heap has at least one place.
#[derive(Clone, Copy, Debug, PartialEq, Eq)]
pub struct Measuring {
    pub setting: Setting,
    pub solving: Solving,
    pub brief: bool,
}
