//! What the field at a place is judged as.
ghost use Rattle.std.specs.Prelude.{◌≡◌, ◌<◌, ◌≤◌, true, length, IfOk};
ghost use Rattle.job_format.specs.Places.{judge_place, place_size};
ghost use Rattle.job_format.specs.Rooms.{has_room};

use crate::judge_head::{head_size, judge_head};
use crate::judge_replay::{judge_count, judge_key, judge_weight};
use crate::judge_solve::{judge_solve, solve_size};
use crate::{JobFault, Place};

/// How many bytes stand at a place, 1 to 44; behind a whole job 1, which is then too much. It takes no memory.
#[inline]
pub fn place_size(place: &Place) -> usize
    ensures size { result ≡ place_size place.now }
    ensures some { 0 < result }
    ensures few { result ≤ 44 }
{
    match place {
        Place::Head { step, numbers: _ } => head_size(*step),
        Place::Count {
            numbers: _,
            tally: _,
        } => 2,
        Place::Key {
            numbers: _,
            tally: _,
            left: _,
        } => 44,
        Place::Weight {
            numbers: _,
            tally: _,
            left: _,
            key: _,
        } => 4,
        Place::ReplayEnd {
            numbers: _,
            tally: _,
        } => 1,
        Place::Solve { step, numbers: _ } => solve_size(*step),
        Place::SolveEnd { numbers: _ } => 1,
    }
}

/// What the field at a place is judged as: the place behind it, or its fault, which is `Magic` or `Version` in the
/// first five bytes, `Extra` behind a whole job, and else `Shape`. It takes no memory.
#[inline]
#[tactic(auto, unfolding(crate::specs::Places::judge_place))]
pub fn judge(place: &Place, field: &[u8]) -> Result<Place, JobFault>
    requires whole { length field.now ≡ place_size place.now }
    requires room { has_room place.now ≡ true }
    ensures value { result ≡ judge_place place.now field.now }
    ensures room { IfOk result (λ place. has_room place ≡ true) }
{
    match place {
        Place::Head { step, numbers } => judge_head(*step, *numbers, field),
        Place::Count { numbers, tally } => judge_count(*numbers, *tally, field),
        Place::Key {
            numbers,
            tally,
            left,
        } => judge_key(*numbers, *tally, *left, field),
        Place::Weight {
            numbers,
            tally,
            left,
            key: _,
        } => judge_weight(*numbers, *tally, *left, field),
        Place::ReplayEnd {
            numbers: _,
            tally: _,
        } => Err(JobFault::Extra),
        Place::Solve { step, numbers } => judge_solve(*step, numbers, field),
        Place::SolveEnd { numbers: _ } => Err(JobFault::Extra),
    }
}
