ghost use Rattle.std.specs.Prelude.{◌≡◌, map, IfOk};
ghost use Rattle.hs_base.specs.Schedule.{numbers_from};
ghost use Rattle.hs_base.specs.Points.{count, is_observed};
ghost use Rattle.horizon_handover.specs.Offers.{IsLast};

use crate::Offer;
use dispatcher::Dispatch;
use edge_filter::Reformed;
use hs_base::{Copies, Extension, List, Memory, Plan, PointId, Time};
use plan_check::CheckedPlan;
use std::alloc::Global;

/// Which of the plan's points are observed.
fn observed_of(alloc: Global, plan: &CheckedPlan) -> Result<List<bool>, Memory>
    ensures { IfOk result (λ flags. flags ≡ map (λ x. is_observed plan.now.mission plan.now.plan.extensions x) (numbers_from 0 (count plan.now.plan.extensions))) }
{
    let index = plan.index();
    let mut flags = List::new(alloc);
    for x in 0..index.points() {
        flags.push(index.is_observed(plan.mission(), PointId(x as u32)))?;
    }
    Ok(flags)
}

/// The plan's last extension, where it has one.
fn last_of(alloc: Global, plan: &Plan) -> Result<Option<Extension>, Memory>
    ensures { IfOk result (IsLast plan.now.extensions) }
{
    match plan.extensions.as_slice().last() {
        Some(extension) => Ok(Some(extension.copy(alloc)?)),
        None => Ok(None),
    }
}

/// Makes a plan ready to be handed over, and takes all memory that its dispatch needs.
pub fn prepare(alloc: Global, reformed: Reformed) -> Result<Offer, Memory>
    ensures plan { IfOk result (λ o. o.plan ≡ reformed.plan) }
    ensures net { IfOk result (λ o. o.net ≡ reformed.net) }
{
    let (plan, dist, net) = reformed.into_parts();
    let observed = observed_of(alloc, &plan)?;
    let extension = last_of(alloc, plan.plan())?;
    let kept = net.copy(alloc)?;
    let origin = Time {
        point: PointId(0),
        at: 0,
    };
    let dispatch = Dispatch::begin(alloc, net, observed, &[origin], 0)?;
    Ok(Offer {
        plan,
        extension,
        net: kept,
        dist,
        dispatch,
    })
}
