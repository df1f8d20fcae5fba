ghost use Rattle.std.specs.Prelude.{◌≡◌, ◌≤◌, length, IfOk, IfSome};
ghost use Rattle.hs_base.specs.Missions.{IsMission};
ghost use Rattle.hs_texts.specs.RefusalText.{not_one_text};
ghost use Rattle.ddl_read.specs.Cutting.{IsCut};
ghost use Rattle.sim_run.specs.Runs.{given_of, told};
ghost use Rattle.commands.specs.Inputs.{IsInFront};
ghost use Rattle.commands.specs.Runs.{AreQuiet, IsSimTold};
ghost use Rattle.commands.specs.Sims.{Runs, RunsAlone, Sims, unbuilt_line};

use crate::checking::{check_each, faulty};
use crate::input::front;
use crate::outcome::refused;
use crate::telling::tell;
use crate::{Outcome, Status};
use answer_lines::push_not_one;
use ddl_read::Pieces;
use hs_base::{Memory, Mission, Plan};
use hs_port::Device;
use hs_texts::{Refusal, Text};
use plan_check::CheckedPlan;
use std::alloc::Global;

/// The refusal of what isn't built yet.
fn unbuilt(alloc: Global) -> Result<Outcome, Memory>
    ensures { IfOk result (λ o. (o.status ≡ Status.Refused) × (o.text ≡ unbuilt_line)) }
{
    let mut text = Text::new(alloc);
    text.push_bytes(b"refused 0\n")?;
    Ok(Outcome {
        status: Status::Refused,
        text,
    })
}

/// The refusal of a plan that hasn't one extension.
fn not_one(alloc: Global, extensions: usize) -> Result<Outcome, Memory>
    ensures { IfOk result (λ o. (o.status ≡ Status.PlanRefused) × (o.text ≡ not_one_text extensions)) }
{
    let mut text = Text::new(alloc);
    push_not_one(&mut text, extensions as u64)?;
    Ok(Outcome {
        status: Status::PlanRefused,
        text,
    })
}

/// Lets the device of each variable load it.
fn load_all<D: Device>(alloc: Global, mission: &Mission, devices: &mut [D]) -> Result<(), Memory>
    requires { length mission.now.vars ≤ length devices.old }
    ensures many { length devices.new ≡ length devices.old }
    ensures quiet { AreQuiet (told D.polls D.faults devices.old devices.new) }
{
    for number in 0..mission.vars.len() {
        devices[number].load(alloc, &mission.vars[number])?;
    }
    Ok(())
}

/// Runs a mission of one horizon, by the plan that is given, or else by the one that a search finds,
/// and tells the run.
fn run<D: Device>(
    alloc: Global,
    first: Option<CheckedPlan>,
    mission: &Mission,
    budget: u64,
    devices: &mut [D],
) -> Result<Outcome, Memory>
    requires mission { IsMission mission.now }
    requires one_horizon { length mission.now.horizons ≡ 1 }
    requires devices { length devices.old ≡ 16 }
    requires first { IfSome first (λ plan. (plan.mission ≡ mission.now) × (length plan.plan.extensions ≡ 1)) }
    ensures same_devices { length devices.new ≡ 16 }
    ensures run { IfOk result (λ o. IsSimTold budget (given_of first) (told D.polls D.faults devices.old devices.new) mission.now o.status o.text) }
{
    load_all(alloc, mission, devices)?;
    let flown = sim_run::sim(alloc, first, mission, devices, budget)?;
    tell(alloc, &flown)
}

/// Runs a mission of one horizon by its plan of one extension, where that is sound.
fn check_and_run<D: Device>(
    alloc: Global,
    mission: &Mission,
    plan: &Plan,
    budget: u64,
    devices: &mut [D],
) -> Result<Outcome, Memory>
    requires mission { IsMission mission.now }
    requires one_horizon { length mission.now.horizons ≡ 1 }
    requires devices { length devices.old ≡ 16 }
    requires one { length plan.now.extensions ≡ 1 }
    ensures same_devices { length devices.new ≡ 16 }
    ensures runs { IfOk result (λ o. Runs budget (told D.polls D.faults devices.old devices.new) mission.now plan.now.extensions o.status o.text) }
{
    let extensions = plan.extensions.as_slice();
    match check_each(alloc, mission, extensions) {
        Ok(checked) => run(alloc, Some(checked), mission, budget, devices),
        Err(flaw) => faulty(alloc, mission, extensions, &flaw),
    }
}

/// What comes of a plan for a mission.
fn planned<D: Device>(
    alloc: Global,
    mission: &Mission,
    plan: &Plan,
    budget: u64,
    devices: &mut [D],
) -> Result<Outcome, Memory>
    requires mission { IsMission mission.now }
    requires devices { length devices.old ≡ 16 }
    ensures same_devices { length devices.new ≡ 16 }
    ensures runs { IfOk result (λ o. Runs budget (told D.polls D.faults devices.old devices.new) mission.now plan.now.extensions o.status o.text) }
{
    if mission.horizons.len() != 1 {
        return unbuilt(alloc);
    }
    if plan.extensions.len() != 1 {
        return not_one(alloc, plan.extensions.len());
    }
    check_and_run(alloc, mission, plan, budget, devices)
}

/// What comes of a mission alone.
fn alone<D: Device>(
    alloc: Global,
    mission: &Mission,
    budget: u64,
    devices: &mut [D],
) -> Result<Outcome, Memory>
    requires mission { IsMission mission.now }
    requires devices { length devices.old ≡ 16 }
    ensures same_devices { length devices.new ≡ 16 }
    ensures runs { IfOk result (λ o. RunsAlone budget (told D.polls D.faults devices.old devices.new) mission.now o.status o.text) }
{
    if mission.horizons.len() == 1 {
        run(alloc, None, mission, budget, devices)
    } else {
        unbuilt(alloc)
    }
}

/// What comes of the pieces behind a mission.
fn behind<D: Device>(
    alloc: Global,
    mission: &Mission,
    pieces: &Pieces,
    used: u32,
    budget: u64,
    devices: &mut [D],
) -> Result<Outcome, Memory>
    requires cut { IsCut pieces.now.bytes pieces.now.pieces }
    requires front { IsInFront pieces.now.bytes mission.now used }
    requires devices { length devices.old ≡ 16 }
    ensures same_devices { length devices.new ≡ 16 }
    ensures sims { IfOk result (λ o. Sims budget (told D.polls D.faults devices.old devices.new) pieces.now.bytes o.status o.text) }
{
    if used == pieces.count() {
        return alone(alloc, mission, budget, devices);
    }
    match plan_text::read(alloc, mission, pieces, used) {
        Ok(plan) => planned(alloc, mission, &plan, budget, devices),
        Err(refusal) => refused(alloc, &refusal),
    }
}

/// Runs a mission of one horizon, of which device i serves variable i, by the plan that follows it,
/// or else by the first one that a search of so many nodes finds, 1 to 1,000,000. Writes the log of
/// the run, and how it ended: with its horizon, by a device's report that came early or late, by a
/// device that failed, or for want of a plan. A mission of several horizons isn't taken yet.
pub fn sim<D: Device>(
    alloc: Global,
    text: &[u8],
    budget: u64,
    devices: &mut [D],
) -> Result<Outcome, Memory>
    requires { length devices.old ≡ 16 }
    ensures same_devices { length devices.new ≡ 16 }
    ensures sims { IfOk result (λ o. Sims budget (told D.polls D.faults devices.old devices.new) text.now o.status o.text) }
{
    let (mission, used) = match front(alloc, text) {
        Ok(front) => front,
        Err(refusal) => return refused(alloc, &refusal),
    };
    match Pieces::cut(alloc, text) {
        Ok(pieces) => behind(alloc, &mission, &pieces, used, budget, devices),
        Err(refusal) => refused(alloc, &refusal),
    }
}
