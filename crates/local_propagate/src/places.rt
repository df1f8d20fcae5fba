ghost use Rattle.std.specs.Prelude.{◌≡◌, ◌<◌, All, IfOk, map};
ghost use Rattle.local_propagate.specs.Joined.{IsJoined, AreDifferent, ArePlaces, leaders_of, after_of, before_of};

use crate::neighbours::{Neighbour, Neighbours};
use hs_base::{Group, Memory, Net};
use std::alloc::Global;

/// A number past those of all leaders.
fn past_leaders(groups: &[Group]) -> usize
    ensures { All (λ a. a < result) (leaders_of groups.now) }
{
    let mut size = 0;
    for group in groups {
        let end = group.leader.0 as usize + 1;
        if size < end {
            size = end;
        }
    }
    size
}

/// The number of each leader's group, by the leader's number. It takes memory up to the greatest
/// of these.
pub fn places(alloc: Global, groups: &[Group]) -> Result<Vec<usize>, Memory>
    requires { AreDifferent (leaders_of groups.now) }
    ensures { IfOk result (λ p. ArePlaces (leaders_of groups.now) p.items) }
{
    let mut places = vec![in alloc; 0; past_leaders(groups)]?;
    for (i, group) in groups.iter().enumerate() {
        places[group.leader.0 as usize] = i;
    }
    Ok(places)
}

/// Of each group those that its edges lead to.
pub fn groups_after(alloc: Global, net: &Net, places: &[usize]) -> Result<Neighbours, Memory>
    requires joined { IsJoined net.now }
    requires places { ArePlaces (leaders_of net.now.groups) places.now }
    ensures { IfOk result (λ n. n ≡ map (after_of (leaders_of net.now.groups) net.now.edges) (leaders_of net.now.groups)) }
{
    let mut after = Neighbours::new(alloc, net.groups.len())?;
    let edges = net.edges.as_slice();
    for edge in edges {
        let next = Neighbour {
            group: places[edge.to.0 as usize],
            most: edge.most,
        };
        after.add(places[edge.from.0 as usize], next)?;
    }
    Ok(after)
}

/// Of each group those that its edges come from.
pub fn groups_before(alloc: Global, net: &Net, places: &[usize]) -> Result<Neighbours, Memory>
    requires joined { IsJoined net.now }
    requires places { ArePlaces (leaders_of net.now.groups) places.now }
    ensures { IfOk result (λ n. n ≡ map (before_of (leaders_of net.now.groups) net.now.edges) (leaders_of net.now.groups)) }
{
    let mut before = Neighbours::new(alloc, net.groups.len())?;
    let edges = net.edges.as_slice();
    for edge in edges {
        let last = Neighbour {
            group: places[edge.from.0 as usize],
            most: edge.most,
        };
        before.add(places[edge.to.0 as usize], last)?;
    }
    Ok(before)
}
