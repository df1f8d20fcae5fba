ghost use Rattle.std.specs.Prelude.{◌≡◌, ◌≤◌, ◌^◌, All, IfOk, OnOk, length};
ghost use Rattle.std.specs.List.{fold};
ghost use Rattle.hs_base.specs.Network.{spread};
ghost use Rattle.hs_base.specs.Reduced.{IsReducedOf};
ghost use Rattle.dispatcher.specs.Places.{ArePlaces, IsNearLeader, IsSmall, placed};

use hs_base::{Member, Memory, Net};
use std::alloc::Global;

/// Where a point stands: the number of its group, and its offset from the leader in ticks.
#[derive(Clone, Copy, Debug, PartialEq, Eq)]
pub struct Place {
    pub group: u32,
    pub offset: i64,
}

/// Notes where members of a group stand.
fn place_members(number: u32, members: &[Member], places: &mut [Place])
    requires { All (IsNearLeader (length places.old)) members.now }
    ensures places { places.new ≡ fold (placed number) places.old members.now }
    ensures small { All IsSmall members.now }
{
    for k in 0..members.len() {
        let point = members[k].point.0 as usize;
        places[point] = Place {
            group: number,
            offset: members[k].offset,
        };
    }
}

/// Notes where all points stand.
fn place_all(net: &Net, places: &mut [Place])
    requires { IsReducedOf (length places.old) (spread net.now) net.now }
    ensures places { ArePlaces (length places.old) net.now places.new }
    ensures small { length places.old ≤ 2 ^ 32 }
{
    let groups = net.groups.as_slice();
    for i in 0..groups.len() {
        let leader = groups[i].leader.0 as usize;
        let number = i as u32;
        places[leader] = Place {
            group: number,
            offset: 0,
        };
        place_members(number, groups[i].members.as_slice(), places);
    }
}

/// The place of each of `count` points.
pub fn places(alloc: Global, count: usize, net: &Net) -> Result<Vec<Place>, Memory>
    requires { IsReducedOf count (spread net.now) net.now }
    ensures places { IfOk result (λ p. ArePlaces count net.now p.items) }
    ensures small { OnOk result (count ≤ 2 ^ 32) }
{
    let mut places = vec![in alloc; Place {
        group: 0,
        offset: 0
    }; count]?;
    place_all(net, places.as_mut_slice());
    Ok(places)
}
