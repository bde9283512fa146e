//! The status of children that were given up.
ghost use Rattle.std.specs.Prelude.{◌≡◌};
ghost use Rattle.mon_place.specs.Place.{stop_status};

use mon_call::{Phase, Status};
use replay_supervisor::Stop;

/// The status of a phase in which children were given up.
pub fn stop_status(phase: Phase, stop: Stop) -> Status
    ensures value { result ≡ stop_status phase stop }
{
    match stop {
        Stop::RestartsSpent { job, bad } => Status::RestartsSpent { phase, job, bad },
        Stop::StaleLimit => Status::StaleLimit { phase },
        Stop::Memory => Status::Memory,
    }
}
