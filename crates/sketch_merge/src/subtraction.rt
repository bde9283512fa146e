//! Counters less others.
ghost use Rattle.std.specs.Prelude.{◌≡◌, ◌^◌, length, IfOk};
ghost use Rattle.count_sketch.specs.Counters.{AllUpTo, minus};

use lane_kernels::sub_into;
use mon_io::Memory;
use std::alloc::Global;

// The counters less the others, place by place, in memory of their own. Absolute values are at most 2^44.
pub(crate) fn subtracted(
    alloc: Global,
    counters: &[i64],
    others: &[i64],
) -> Result<Vec<i64>, Memory>
    requires number { length counters.now ≡ length others.now }
    requires small { AllUpTo (2 ^ 44) counters.now }
    requires other_small { AllUpTo (2 ^ 44) others.now }
    ensures value { IfOk result (λ less. less.items ≡ minus counters.now others.now) }
{
    let Ok(mut less) = counters.to_vec(alloc) else {
        return Err(Memory);
    };
    sub_into(&mut less, others);
    Ok(less)
}
