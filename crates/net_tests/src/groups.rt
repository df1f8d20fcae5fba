use crate::distances::rigid;
use hs_base::{Group, Member, PointId};
use rigid_contract::contract;
use std::test::Fail;

/// Whether Z stands alone, and point 2 leads point 1.
fn is_led_by_the_earlier(groups: &[Group]) -> bool {
    let member = Member {
        point: PointId(1),
        offset: 7,
    };
    match groups {
        [first, second] => {
            first.leader == PointId(0)
                && first.members.is_empty()
                && second.leader == PointId(2)
                && second.members.as_slice() == [member].as_slice()
        }
        _ => false,
    }
}

#[test]
fn the_earlier_of_two_leads(rt: HostRuntime) -> Result<(), Fail> {
    let dist = rigid(rt.alloc())?;
    let groups = contract(rt.alloc(), &dist)?;
    assert!(rt; is_led_by_the_earlier(groups.as_slice()));
    Ok(())
}
