ghost use Rattle.std.specs.Prelude.{◌≡◌, ◌↔◌, IfOk};
ghost use Rattle.hs_base.specs.Points.{count};
ghost use Rattle.hs_base.specs.Bounds.{bounds_of};
ghost use Rattle.hs_base.specs.Network.{Admits};
ghost use Rattle.hs_base.specs.Reduced.{IsReducedOf};
ghost use Rattle.hs_base.specs.Schedule.{Meets, Schedule};
ghost use Rattle.stn_distance.specs.Distances.{IsDistOf};
ghost use Rattle.edge_filter.specs.Reform.{IsReformed};

use crate::network;
use hs_base::{Memory, Net, Time};
use plan_check::CheckedPlan;
use plan_index::PlanIndex;
use std::alloc::Global;
use std::marker::Model;
use stn_distance::{Broken, Dist, close_fixed};
use token_net::{bounds, points};

/// A checked plan with the distances of its points and its reduced network.
#[derive(Drop)]
pub struct Reformed {
    plan: CheckedPlan,
    dist: Dist,
    net: Net,
}

impl Model for Reformed {
    ghost use Rattle.edge_filter.specs.Reform.{Reform, IsReformed};

    ghost Value = { Reform };

    ghost view = { λ r. record { plan = r.plan; dist = r.dist; net = r.net } };

    ghost invariant = { λ r. IsReformed (record { plan = r.plan; dist = r.dist; net = r.net }) };
}

impl Reformed {
    /// The plan; it takes no memory.
    pub fn plan(&self) -> &CheckedPlan
        ensures plan { result.now ≡ self.now.plan }
        ensures reformed { IsReformed self.now }
    {
        &self.plan
    }

    /// The distances of the plan's points; it takes no memory.
    pub fn dist(&self) -> &Dist
        ensures dist { result.now ≡ self.now.dist }
        ensures reformed { IsReformed self.now }
    {
        &self.dist
    }

    /// The reduced network of the plan's bounds; it takes no memory.
    pub fn net(&self) -> &Net
        ensures net { result.now ≡ self.now.net }
        ensures reformed { IsReformed self.now }
    {
        &self.net
    }

    /// The three parts; it takes no memory.
    pub fn into_parts(self) -> (CheckedPlan, Dist, Net)
        ensures plan { result.0 ≡ self.plan }
        ensures dist { result.1 ≡ self.dist }
        ensures net { result.2 ≡ self.net }
        ensures reformed { IsReformed self }
    {
        let Reformed { plan, dist, net } = self;
        (plan, dist, net)
    }
}

/// The times that a plan fixes, by its index.
fn fixed_of(alloc: Global, index: &PlanIndex) -> Result<Vec<Time>, Memory>
    ensures { IfOk result (λ fixed. fixed.items ≡ index.now.fixed) }
{
    let mut fixed = Vec::new(alloc);
    fixed.extend_from_slice(index.fixed())?;
    Ok(fixed)
}

/// The distances of a plan's points.
fn distances(alloc: Global, plan: &CheckedPlan) -> Result<Dist, Memory>
    ensures { IfOk result (IsDistOf (count plan.now.plan.extensions) (bounds_of plan.now.mission plan.now.plan.extensions)) }
{
    let bounds = bounds(alloc, plan.mission(), plan.plan())?;
    let mut fixed = fixed_of(alloc, plan.index())?;
    fixed.sort_unstable_by_key(|time| time.point.0);
    match close_fixed(
        alloc,
        points(plan.plan()),
        fixed.as_slice(),
        bounds.as_slice(),
    ) {
        Ok(dist) => Ok(dist),
        Err(Broken::Memory) => Err(Memory),
        // The bounds of a checked plan have a schedule, so they have no negative cycle.
        Err(Broken::Cycle(_)) => unreachable!(),
    }
}

/// Reformulates a checked plan for dispatching: its distances, and the network of rigid groups and
/// of the edges between their leaders that no edge dominates (Muscettola, Morris, Tsamardinos 1998).
/// The network admits exactly the schedules of the plan.
pub fn reform(alloc: Global, plan: CheckedPlan) -> Result<Reformed, Memory>
    ensures plan { IfOk result (λ r. r.plan ≡ plan) }
    ensures net { IfOk result (λ r. IsReducedOf (count plan.plan.extensions) (bounds_of plan.mission plan.plan.extensions) r.net) }
    ensures exact { IfOk result (λ r. (s : Schedule) → Admits r.net s ↔ Meets (bounds_of plan.mission plan.plan.extensions) s) }
{
    let dist = distances(alloc, &plan)?;
    let net = network(alloc, &dist)?;
    Ok(Reformed { plan, dist, net })
}
