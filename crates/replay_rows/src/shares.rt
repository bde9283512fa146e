//! What the shares of two switches are merged to.
ghost use Rattle.std.specs.Prelude.{◌≡◌, [], ◌∷◌};

use bound_certificate::Placement;
use child_worker::WorkerAnswer;
use flow_keys::{FlowKey, Routed};
use hash_family::Params;
use inline_crew::InlineCrew;
use replay_jobs::ReplayJobs;
use replay_phase::replay;
use sqlite_items::Items;
use std::alloc::Global;
use std::process::Abort;

/// The one path is given to the first of two switches.
pub(crate) fn first_of_two(rt: &impl Abort, alloc: Global) -> Placement
    ensures sites { result.sites ≡ 0 ∷ [] }
{
    let sites = Items::from_slice(alloc, &[0]).expect(rt, "room for a site");
    Placement { sites }
}

#[test]
fn no_packets(rt: HostRuntime) {
    let params = Params::new(0, 1, 16, 4, 1).expect(&rt, "the numbers of a sketch");
    let placement = first_of_two(&rt, rt.alloc());
    let jobs = ReplayJobs::new(rt.alloc(), params, 2, 2, &placement, &[]).expect(&rt, "jobs");
    let mut crew = InlineCrew::new(rt.alloc(), WorkerAnswer::new(rt.alloc()));
    let merged = replay(rt.alloc(), &mut crew, jobs, 1, 0).expect(&rt, "replies");
    match merged.as_slice() {
        [first, second] => {
            assert_eq!(rt; (first.weight(), first.dropped()), (0, false));
            assert_eq!(rt; first.keys(0).len(), 0);
            assert_eq!(rt; (second.weight(), second.dropped()), (0, false));
        }
        _ => panic!(rt; "two epochs"),
    }
}

#[test]
fn one_packet(rt: HostRuntime) {
    let params = Params::new(0, 1, 16, 4, 1).expect(&rt, "the numbers of a sketch");
    let placement = first_of_two(&rt, rt.alloc());
    let key = FlowKey::from_words([
        4,
        167_772_161,
        0,
        0,
        0,
        167_837_698,
        0,
        0,
        0,
        65_536_053,
        17,
    ]);
    let key = key.expect(&rt, "a key");
    let routed = [Routed {
        epoch: 1,
        path: 0,
        key,
        weight: 42,
    }];
    let jobs = ReplayJobs::new(rt.alloc(), params, 2, 2, &placement, &routed).expect(&rt, "jobs");
    let mut crew = InlineCrew::new(rt.alloc(), WorkerAnswer::new(rt.alloc()));
    let merged = replay(rt.alloc(), &mut crew, jobs, 4, 3).expect(&rt, "replies");
    match merged.as_slice() {
        [first, second] => {
            assert_eq!(rt; first.weight(), 0);
            assert_eq!(rt; second.weight(), 42);
            assert_eq!(rt; second.keys(0), [key].as_slice());
            assert_eq!(rt; second.dropped(), false);
        }
        _ => panic!(rt; "two epochs"),
    }
}
