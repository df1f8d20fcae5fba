ghost use Rattle.std.specs.Prelude.{◌↔◌, IfOk};
ghost use Rattle.hs_base.specs.Schedule.{Schedule, Meets};
ghost use Rattle.hs_base.specs.Network.{Admits};
ghost use Rattle.hs_base.specs.Reduced.{IsReducedOf};

use crate::keep;
use hs_base::{Memory, Net};
use rigid_contract::contract;
use std::alloc::Global;
use stn_distance::Dist;

/// The reduced network of a network of bounds, from its distances: the rigid groups, and the edges
/// between their leaders that no edge dominates. It admits exactly the schedules of the bounds.
pub fn network(alloc: Global, dist: &Dist) -> Result<Net, Memory>
    ensures reduced { IfOk result (IsReducedOf dist.now.count dist.now.bounds) }
    ensures exact { IfOk result (λ net. (s : Schedule) → Admits net s ↔ Meets dist.now.bounds s) }
{
    let _ = dist.points();
    let groups = contract(alloc, dist)?;
    let edges = keep(alloc, dist, &groups)?;
    Ok(Net { groups, edges })
}
