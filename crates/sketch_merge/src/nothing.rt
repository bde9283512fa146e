//! What merged sketches of nothing have.
ghost use Rattle.std.specs.Prelude.{◌≡◌, [], map, pos, replicate, IfOk};

use flow_keys::FlowKey;
use mon_io::Memory;
use std::alloc::Global;

// So many counters, each 0.
pub(crate) fn zeros(alloc: Global, number: usize) -> Result<Vec<i64>, Memory>
    ensures value { IfOk result (λ counters. counters.items ≡ replicate number (pos 0)) }
{
    match vec![in alloc; 0; number] {
        Ok(counters) => Ok(counters),
        Err(_) => Err(Memory),
    }
}

// So many lists without a key.
pub(crate) fn no_keys(alloc: Global, levels: usize) -> Result<Vec<Vec<FlowKey>>, Memory>
    ensures value { IfOk result (λ all. map (λ level. level.items) all.items ≡ replicate levels []) }
{
    let Ok(mut all) = Vec::with_capacity(alloc, levels) else {
        return Err(Memory);
    };
    for _ in 0..levels {
        if all.push(Vec::new(alloc)).is_err() {
            return Err(Memory);
        }
    }
    Ok(all)
}
