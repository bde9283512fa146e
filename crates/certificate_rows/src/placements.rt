//! Placements: which fit, what they cost, and the first fit.

use crate::made::{too_coarse, too_small, two_prices};
use bound_certificate::{Placement, cost, first_fit, fits};
use sqlite_items::Items;
use std::test::Fail;

#[test]
fn placements(rt: HostRuntime) -> Result<(), Fail> {
    let problem = two_prices(&rt, rt.alloc(), 0)?;
    let table = [
        ([0, 0], true, 13),
        ([0, 1], true, 21),
        ([1, 0], true, 21),
        ([1, 1], true, 12),
    ];
    for (sites, does_fit, costs) in table {
        let sites = Items::from_slice(rt.alloc(), &sites)?;
        let placement = Placement { sites };
        assert_eq!(rt; fits(&problem, &placement), does_fit);
        if fits(&problem, &placement) {
            assert_eq!(rt; cost(&problem, &placement), costs);
        }
    }
    Ok(())
}

#[test]
fn ten_is_above_eight(rt: HostRuntime) -> Result<(), Fail> {
    let problem = too_small(&rt, rt.alloc())?;
    let sites = Items::from_slice(rt.alloc(), &[0, 0])?;
    assert!(rt; !fits(&problem, &Placement { sites }), "10 is above 8");
    Ok(())
}

#[test]
fn first_fit_takes_the_first_site(rt: HostRuntime) -> Result<(), Fail> {
    let problem = two_prices(&rt, rt.alloc(), 0)?;
    let found = first_fit(rt.alloc(), &problem).expect(&rt, "ample memory");
    let found = found.ok_or("each need finds room")?;
    assert_eq!(rt; found.sites.as_slice(), [0, 0].as_slice());
    Ok(())
}

#[test]
fn first_fit_finds_no_room(rt: HostRuntime) -> Result<(), Fail> {
    let problem = too_coarse(&rt, rt.alloc())?;
    let found = first_fit(rt.alloc(), &problem).expect(&rt, "ample memory");
    assert!(rt; found.is_none(), "the third need finds no room");
    Ok(())
}
