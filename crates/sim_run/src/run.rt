ghost use Rattle.std.specs.Prelude.{◌≡◌, ◌+◌, ◌<◌, ◌≤◌, ◌^◌, [], IfOk, IfSome, length};
ghost use Rattle.hs_base.specs.Missions.{IsMission};
ghost use Rattle.hs_machine.specs.State.{count_at};
ghost use Rattle.sim_run.specs.Runs.{HasFront, IsFlight, IsRunOf, IsWhy, attempts_of, given_of, told};

use crate::flight::fly;
use exec_core::Exec;
use hs_base::{Copies, List, Memory, Mission};
use hs_port::Device;
use plan_check::CheckedPlan;
use plan_search::{Unplanned, first_plan};
use std::alloc::Global;

/// What became of the attempts at plans.
#[derive(Drop)]
pub enum Planned {
    /// Each was handed over.
    All,
    /// None was found for a history of so many entries.
    NoPlan { front: u64 },
    /// The nodes ended there; the path is that of the next node.
    Budget { front: u64, path: List<u32> },
}

/// An executive at the end of a run, and what became of the attempts at plans.
#[derive(Drop)]
pub struct Flown {
    pub exec: Exec,
    pub planned: Planned,
}

/// The flight of a plan, with the devices of its mission's variables.
fn fly_plan<D: Device>(alloc: Global, plan: CheckedPlan, devices: &mut [D]) -> Result<Flown, Memory>
    requires one { length plan.plan.extensions ≡ 1 }
    requires many { length plan.mission.vars ≤ length devices.old }
    ensures same_devices { length devices.new ≡ length devices.old }
    ensures flight { IfOk result (λ flown. (flown.planned ≡ Planned.All) × IsFlight plan (told D.polls D.faults devices.old devices.new) flown.exec) }
{
    let count = plan.mission().vars.len();
    Ok(Flown {
        exec: fly(alloc, plan, &mut devices[..count])?,
        planned: Planned::All,
    })
}

/// A run that had no plan.
fn grounded(alloc: Global, mission: &Mission, why: Unplanned) -> Result<Flown, Memory>
    requires { IsMission mission.now }
    ensures { IfOk result (λ flown. (flown.exec ≡ record { mission = mission.now; history = [] }) × IsWhy why flown.planned) }
{
    let planned = match why {
        Unplanned::NoPlan => Planned::NoPlan { front: 0 },
        Unplanned::Budget(path) => Planned::Budget { front: 0, path },
        Unplanned::Memory => return Err(Memory),
    };
    Ok(Flown {
        exec: Exec::begin(alloc, mission.copy(alloc)?)?,
        planned,
    })
}

/// The run of a mission of one horizon, of which device i serves variable i: by the plan that is
/// given, or else by the first one that a search of so many nodes finds, 1 to 1,000,000.
pub fn sim<D: Device>(
    alloc: Global,
    first: Option<CheckedPlan>,
    mission: &Mission,
    devices: &mut [D],
    budget: u64,
) -> Result<Flown, Memory>
    requires mission { IsMission mission.now }
    requires one_horizon { length mission.now.horizons ≡ 1 }
    requires devices { length devices.old ≡ 16 }
    requires first { IfSome first (λ plan. (plan.mission ≡ mission.now) × (length plan.plan.extensions ≡ 1)) }
    ensures same_devices { length devices.new ≡ 16 }
    ensures mission { IfOk result (λ flown. flown.exec.mission ≡ mission.now) }
    ensures run { IfOk result (λ flown. IsRunOf mission.now budget (given_of first) (told D.polls D.faults devices.old devices.new) flown.exec.history (attempts_of flown.planned)) }
    ensures front { IfOk result (λ flown. HasFront (length flown.exec.history) flown.planned) }
    ensures few { IfOk result (λ flown. count_at flown.exec.history + 1 < 2 ^ 32) }
{
    if let Some(plan) = first {
        return fly_plan(alloc, plan, devices);
    }
    match first_plan(alloc, mission, budget) {
        Ok(plan) => fly_plan(alloc, plan, devices),
        Err(why) => grounded(alloc, mission, why),
    }
}
