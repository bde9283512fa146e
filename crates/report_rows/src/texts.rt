//! The texts of finished measures.
use crate::made::{no_packets, one_switch, placement, text_of, two_switches};
use bound_certificate::fits;
use hash_family::Params;
use measure_report::Run;
use std::test::Fail;

const ONE_PATH: &str = "univmon measure 1
packets 0 keyed 0 routed 0
sketch seed 1 levels 12 rows 5 width 1024 heap 64 weight packets
placement optimal cost 15 bound 15
path p0 s0
switch s0 load 5 capacity 10
epoch 0 packets 0 weight 0 heaps kept
cardinality 0
total 0
end
";

const TWO_PATHS: &str = "univmon measure 1
packets 0 keyed 0 routed 0
sketch seed 1 levels 12 rows 5 width 1024 heap 64 weight packets
placement optimal cost 12 bound 12
path p0 b
path p1 b
switch a load 0 capacity 10
switch b load 8 capacity 10
epoch 0 packets 0 weight 0 heaps kept
cardinality 0
total 0
end
";

const FEW_LINES: &str = "univmon drill 1
packets 0 keyed 0 routed 0
sketch seed 7 levels 0 rows 1 width 16 heap 1 weight bytes
placement unfinished cost 15 bound -3
epoch 0 packets 0 weight 0 heaps kept
cardinality 0
total 0
epoch 1 packets 0 weight 0 heaps kept
cardinality 0
total 0
change 0 1 total 0
end
";

#[test]
fn one_path(rt: HostRuntime) -> Result<(), Fail> {
    let topology = one_switch(&rt, rt.alloc());
    let params = Params::new(12, 5, 1024, 64, 1).expect(&rt, "within the limits");
    let placement = placement(rt.alloc(), &[0])?;
    assert!(rt; fits(topology.problem(), &placement), "it fits");
    let counts = no_packets(1, false);
    let run = Run::new(&topology, params, counts, &placement, 15, 10, false);
    let text = text_of(&rt, rt.alloc(), &run, params, 1);
    assert_eq!(rt; text.as_str(), ONE_PATH);
    Ok(())
}

#[test]
fn two_paths(rt: HostRuntime) -> Result<(), Fail> {
    let topology = two_switches(&rt, rt.alloc());
    let params = Params::new(12, 5, 1024, 64, 1).expect(&rt, "within the limits");
    let placement = placement(rt.alloc(), &[1, 1])?;
    assert!(rt; fits(topology.problem(), &placement), "it fits");
    let counts = no_packets(1, false);
    let run = Run::new(&topology, params, counts, &placement, 12, 10, false);
    let text = text_of(&rt, rt.alloc(), &run, params, 1);
    assert_eq!(rt; text.as_str(), TWO_PATHS);
    Ok(())
}

#[test]
fn the_few_lines_of_two_epochs(rt: HostRuntime) -> Result<(), Fail> {
    let topology = one_switch(&rt, rt.alloc());
    let params = Params::new(0, 1, 16, 1, 7).expect(&rt, "within the limits");
    let placement = placement(rt.alloc(), &[0])?;
    assert!(rt; fits(topology.problem(), &placement), "it fits");
    let counts = no_packets(2, true);
    let run = Run::new(&topology, params, counts, &placement, -3, 10, true);
    let text = text_of(&rt, rt.alloc(), &run, params, 2);
    assert_eq!(rt; text.as_str(), FEW_LINES);
    Ok(())
}
