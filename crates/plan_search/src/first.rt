ghost use Rattle.std.specs.Prelude.{◌≡◌, ◌<◌, IfErr, IfOk};
ghost use Rattle.hs_base.specs.Missions.{IsMission};
ghost use Rattle.plan_check.specs.Seen.{seen};
ghost use Rattle.search_tree.specs.Begun.{begun_of};
ghost use Rattle.search_tree.specs.Outset.{MayBegin};
ghost use Rattle.plan_search.specs.First.{IsPlanned, IsPlannedFrom, IsUnplanned, IsUnplannedFrom, outset as nothing_yet};

use crate::search_loop::plan_where;
use crate::steps::Steps;
use crate::unplanned::Unplanned;
use hs_base::{Copies, List, Memory, Mission};
use plan_check::{AllPlans, CheckedPlan, Snapshot};
use std::alloc::Global;
use std::marker::Brand;
use std::sync::ledger::{Blank, Ledger};

/// A mission to which nothing has happened yet.
pub(crate) fn outset(alloc: Global, mission: &Mission) -> Result<Snapshot, Memory>
    requires { IsMission mission.now }
    ensures mission { IfOk result (λ s. s.plan.mission ≡ mission.now) }
    ensures begun { IfOk result (λ s. begun_of (seen s) ≡ nothing_yet) }
{
    Ok(Snapshot {
        plan: CheckedPlan::none(alloc, mission.copy(alloc)?)?,
        since: 0,
        fixed: List::new(alloc),
        front: 0,
    })
}

/// The plan with what a search finds, on a counter of its own.
fn plan_alone<L: Ledger>(
    alloc: Global,
    blank: Blank,
    snapshot: &Snapshot,
    budget: u64,
) -> Result<CheckedPlan, Unplanned>
    requires name { blank.name ≡ L.name }
    requires parts { blank.parts ≡ L.parts }
    requires some { 0 < blank.parts }
    requires begin { MayBegin snapshot.now.plan.mission (begun_of (seen snapshot.now)) }
    ensures mission { IfOk result (λ c. c.mission ≡ snapshot.now.plan.mission) }
    ensures planned { IfOk result (λ c. IsPlannedFrom snapshot.now.plan.mission (begun_of (seen snapshot.now)) budget c.plan.extensions) }
    ensures unplanned { IfErr result (IsUnplannedFrom snapshot.now.plan.mission (begun_of (seen snapshot.now)) budget) }
{
    let mut all = AllPlans;
    let mut steps = Steps::<L>::begin(blank);
    plan_where(alloc, snapshot, &mut all, budget, &mut steps)
}

/// The plan of a mission's first horizon, to which nothing has happened yet, that a search of so
/// many nodes finds: 1 to 1,000,000.
pub fn first_plan(alloc: Global, mission: &Mission, budget: u64) -> Result<CheckedPlan, Unplanned>
    requires { IsMission mission.now }
    ensures mission { IfOk result (λ c. c.mission ≡ mission.now) }
    ensures planned { IfOk result (λ c. IsPlanned mission.now budget c.plan.extensions) }
    ensures unplanned { IfErr result (IsUnplanned mission.now budget) }
{
    let snapshot = outset(alloc, mission)?;
    plan_alone::<Brand>(alloc, Blank::new(1), &snapshot, budget)
}
