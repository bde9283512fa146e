//! Counters with others added.
ghost use Rattle.std.specs.Prelude.{◌≡◌, ◌^◌, length};
ghost use Rattle.count_sketch.specs.Counters.{AllUpTo, plus};

use lane_kernels::add_into;

// Adds the others to the counters, place by place. Absolute values are at most 2^45.
pub(crate) fn add(counters: &mut [i64], others: &[i64])
    requires number { length counters.old ≡ length others.now }
    requires small { AllUpTo (2 ^ 45) counters.old }
    requires other_small { AllUpTo (2 ^ 45) others.now }
    ensures value { counters.new ≡ plus counters.old others.now }
{
    add_into(counters, others);
}
