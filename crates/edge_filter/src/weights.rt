ghost use Rattle.std.specs.Prelude.{◌≡◌, ◌<◌, length, map, All, IfOk};
ghost use Rattle.stn_distance.specs.Distances.{weight};
ghost use Rattle.stn_distance.specs.Rows.{items_of};
ghost use Rattle.edge_filter.specs.Sides.{along};
ghost use Rattle.edge_filter.specs.Weights.{IsRow, IsGrid, weights_on};

use crate::side::Side;
use hs_base::Memory;
use std::alloc::Global;
use stn_distance::Dist;

/// The weights of the edges between a leader and each of them on this side.
fn weights_of(
    alloc: Global,
    dist: &Dist,
    leaders: &[u32],
    side: Side,
    leader: u32,
) -> Result<Vec<i64>, Memory>
    requires leader { leader < dist.now.count }
    requires leaders { All (λ p. p < dist.now.count) leaders.now }
    ensures row { IfOk result (λ v. IsRow (length leaders.now) v.items) }
    ensures weights { IfOk result (λ v. v.items ≡ map (along side (weight dist.now) leader) leaders.now) }
{
    let mut row = Vec::with_capacity(alloc, leaders.len())?;
    for other in leaders {
        row.push(side.along(dist, leader, *other))?;
    }
    Ok(row)
}

/// The weights of the edges between leaders on this side, a row for each leader.
pub(crate) fn weights_between(
    alloc: Global,
    dist: &Dist,
    leaders: &[u32],
    side: Side,
) -> Result<Vec<Vec<i64>>, Memory>
    requires { All (λ p. p < dist.now.count) leaders.now }
    ensures grid { IfOk result (λ v. IsGrid (length leaders.now) (items_of v.items)) }
    ensures weights { IfOk result (λ v. items_of v.items ≡ weights_on side (weight dist.now) leaders.now leaders.now) }
{
    let mut rows = Vec::with_capacity(alloc, leaders.len())?;
    for leader in leaders {
        rows.push(weights_of(alloc, dist, leaders, side, *leader)?)?;
    }
    Ok(rows)
}
