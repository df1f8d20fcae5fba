ghost use Rattle.std.specs.Prelude.{◌≡◌, ◌<◌, IfOk};
ghost use Rattle.hs_base.specs.Missions.{IsMission};
ghost use Rattle.search_tree.specs.Begun.{begun_of};
ghost use Rattle.plan_check.specs.Seen.{seen};
ghost use Rattle.plan_search.specs.First.{outset as nothing_yet};

use crate::checks::mission;
use hs_base::{Copies, List, Memory, Mission};
use plan_check::{CheckedPlan, Filter, Snapshot};
use plan_search::{Found, Steps, Unplanned, first_plan, search_where};
use sample_missions::camera_extension;
use std::alloc::Global;
use std::marker::Brand;
use std::sync::ledger::{Blank, Ledger};
use std::test::Fail;

/// What a search of so many nodes finds for the camera mission.
fn planned(alloc: Global, budget: u64) -> Result<CheckedPlan, Unplanned> {
    first_plan(alloc, &mission(alloc)?, budget)
}

/// Whether the budget ends before the node at that path.
fn ends_before(alloc: Global, budget: u64, path: &[u32]) -> Result<bool, Memory> {
    match planned(alloc, budget) {
        Err(Unplanned::Budget(next)) => Ok(next.as_slice() == path),
        Err(Unplanned::Memory) => Err(Memory),
        _ => Ok(false),
    }
}

#[test]
fn a_budget_ends_before_the_next_node(rt: HostRuntime) -> Result<(), Fail> {
    let alloc = rt.alloc();
    assert!(rt; ends_before(alloc, 0, &[])?);
    assert!(rt; ends_before(alloc, 1, &[0])?);
    assert!(rt; ends_before(alloc, 9, &[0, 0, 0, 1, 0, 0, 0, 0])?);
    Ok(())
}

/// Whether the plan that so many nodes lead to is the camera mission's.
fn is_found(alloc: Global, budget: u64) -> Result<bool, Memory> {
    let wanted = camera_extension(alloc)?;
    match planned(alloc, budget) {
        Ok(found) => Ok(found.plan().extensions.as_slice() == [wanted].as_slice()),
        Err(Unplanned::Memory) => Err(Memory),
        Err(_) => Ok(false),
    }
}

#[test]
fn the_tenth_node_is_the_plan(rt: HostRuntime) -> Result<(), Fail> {
    assert!(rt; is_found(rt.alloc(), 10)?);
    Ok(())
}

/// Takes no plan.
#[derive(Debug, Drop)]
struct NoPlans;

impl Filter for NoPlans {
    ghost test = { λ filter m es. ⊥ };

    fn takes(&mut self, _alloc: Global, _joined: &CheckedPlan) -> Result<bool, Memory> {
        Ok(false)
    }
}

/// A mission to which nothing has happened yet.
pub(crate) fn outset(alloc: Global, mission: &Mission) -> Result<Snapshot, Memory>
    requires { IsMission mission.now }
    ensures mission { IfOk result (λ s. s.plan.mission ≡ mission.now) }
    ensures begun { IfOk result (λ s. begun_of (seen s) ≡ nothing_yet) }
{
    Ok(Snapshot {
        plan: CheckedPlan::none(alloc, mission.copy(alloc)?)?,
        since: 0,
        fixed: List::new(alloc),
        front: 0,
    })
}

/// What a search that takes no plan finds for the camera mission, on that counter.
fn untaken<L: Ledger>(alloc: Global, blank: Blank, budget: u64) -> Result<Found, Memory>
    requires name { blank.name ≡ L.name }
    requires parts { blank.parts ≡ L.parts }
    requires some { 0 < blank.parts }
{
    let mission = mission(alloc)?;
    let snapshot = outset(alloc, &mission)?;
    let mut steps = Steps::<L>::begin(blank);
    search_where(alloc, &snapshot, &mut NoPlans, budget, &mut steps)
}

/// Whether it ends before the node at that path.
fn goes_on_to(alloc: Global, budget: u64, path: &[u32]) -> Result<bool, Memory> {
    match untaken::<Brand>(alloc, Blank::new(1), budget)? {
        Found::Budget(next) => Ok(next.as_slice() == path),
        _ => Ok(false),
    }
}

#[test]
fn a_plan_that_is_not_taken_is_passed(rt: HostRuntime) -> Result<(), Fail> {
    assert!(rt; goes_on_to(rt.alloc(), 10, &[0, 0, 0, 1, 0, 0, 1])?);
    Ok(())
}
