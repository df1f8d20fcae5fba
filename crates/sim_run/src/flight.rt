ghost use Rattle.std.specs.Prelude.{◌≡◌, List, [], IfOk, OnOk, length, map};
ghost use Rattle.std.specs.Bool.{OnFalse, OnTrue};
ghost use Rattle.hs_base.specs.declared.plan.Extension.{Extension};
ghost use Rattle.hs_base.specs.Checked.{Checked};
ghost use Rattle.hs_machine.specs.Eager.{NoneMayFire};
ghost use Rattle.sim_run.specs.Told.{Known, known};
ghost use Rattle.sim_run.specs.Moves.{GoesFurther, GoesOn, IsGoing, IsOver};
ghost use Rattle.sim_run.specs.Parts.{HasTicked, IsBegun, IsFlown, IsLate, IsLaunched, IsReady};

use crate::attending::attend_all;
use crate::polling::{Polled, poll_all};
use crate::settling::settle;
use crate::watch::{OWN, Watch};
use edge_filter::reform;
use exec_core::{Exec, Reply, prepare};
use hs_base::{Copies, Memory};
use hs_port::Device;
use plan_check::CheckedPlan;
use std::alloc::Global;

/// Goes on to the next tick; says whether the run goes on.
fn ticks(exec: &mut Exec) -> bool
    requires going { IsGoing exec.old }
    requires settled { NoneMayFire exec.old.mission exec.old.history }
    ensures ticked { OnTrue result (HasTicked exec.old exec.new) }
    ensures late { OnFalse result (IsLate exec.old exec.new) }
{
    match exec.tick(OWN) {
        Reply::Done => true,
        _ => false,
    }
}

/// Settles a tick, goes on to the next one, and polls the devices there. Says whether the run goes on.
fn step<D: Device>(
    alloc: Global,
    exec: &mut Exec,
    devices: &mut [D],
    watch: &mut Watch,
) -> Result<bool, Memory>
    ghost before: { List Known }
    requires { IsReady exec.old before (map (known D.polls D.faults) devices.old) watch.old }
    ensures many { length devices.new ≡ length devices.old }
    ensures goes_on { IfOk result (λ on. OnTrue on (GoesFurther exec.old exec.new × IsReady exec.new before (map (known D.polls D.faults) devices.new) watch.new)) }
    ensures over { IfOk result (λ on. OnFalse on (GoesOn exec.old exec.new × IsOver before (map (known D.polls D.faults) devices.new) exec.new)) }
{
    if !settle(alloc, exec, devices, watch)? {
        return Ok(false);
    }
    if !ticks(exec) {
        return Ok(false);
    }
    match poll_all(exec, devices, watch) {
        Polled::Quiet => Ok(true),
        Polled::Reported => attend_all(alloc, exec, devices, watch),
        Polled::Over => Ok(false),
    }
}

/// Goes from tick to tick until the run is over.
fn go_on<D: Device>(
    alloc: Global,
    exec: &mut Exec,
    devices: &mut [D],
    watch: &mut Watch,
) -> Result<(), Memory>
    ghost before: { List Known }
    requires { IsReady exec.old before (map (known D.polls D.faults) devices.old) watch.old }
    ensures many { length devices.new ≡ length devices.old }
    ensures over { OnOk result (GoesOn exec.old exec.new × IsOver before (map (known D.polls D.faults) devices.new) exec.new) }
{
    'ticks: while step(alloc, exec, devices, watch)? {}
    Ok(())
}

/// An executive of the plan's mission, which has done nothing.
fn begin(alloc: Global, plan: &CheckedPlan) -> Result<Exec, Memory>
    ensures checked { Checked plan.now.mission plan.now.plan.extensions }
    ensures begun { IfOk result (λ exec. exec ≡ record { mission = plan.now.mission; history = [] }) }
{
    Exec::begin(alloc, plan.mission().copy(alloc)?)
}

/// Hands the plan over to an executive of its mission, which has done nothing.
fn hand_over(alloc: Global, exec: &mut Exec, plan: CheckedPlan) -> Result<(), Memory>
    requires checked { Checked plan.mission plan.plan.extensions }
    requires one { length plan.plan.extensions ≡ 1 }
    requires begun { exec.old ≡ record { mission = plan.mission; history = [] } }
    ensures { OnOk result (IsLaunched plan exec.new) }
{
    let offer = prepare(alloc, reform(alloc, plan)?)?;
    match exec.hand_over(OWN, offer) {
        Reply::Done => Ok(()),
        Reply::Memory => Err(Memory),
        // A checked plan of one extension is refused for no other cause.
        _ => unreachable!(),
    }
}

/// An executive to which the plan was handed over at its beginning.
fn launch(alloc: Global, plan: CheckedPlan) -> Result<Exec, Memory>
    requires one { length plan.plan.extensions ≡ 1 }
    ensures { IfOk result (IsLaunched plan) }
{
    let mut exec = begin(alloc, &plan)?;
    hand_over(alloc, &mut exec, plan)?;
    Ok(exec)
}

/// Flies the plan that was handed over, with a device for each variable.
fn fly_on<D: Device>(alloc: Global, exec: &mut Exec, devices: &mut [D]) -> Result<(), Memory>
    ghost before: { List Known }
    requires known { before ≡ map (known D.polls D.faults) devices.old }
    requires begun { (extension : Extension) × IsBegun exec.old extension }
    requires many { length devices.old ≡ length exec.old.mission.vars }
    ensures many { length devices.new ≡ length devices.old }
    ensures over { OnOk result (GoesOn exec.old exec.new × IsOver before (map (known D.polls D.faults) devices.new) exec.new) }
{
    let mut watch = Watch::begin(alloc, devices.len())?;
    if attend_all(alloc, exec, devices, &mut watch)? {
        go_on(alloc, exec, devices, &mut watch)?;
    }
    Ok(())
}

/// The run of a checked plan of one extension, with a device for each variable of its mission. The
/// plan is handed over at tick 0. At each tick the devices whose scripts run are polled, and the ends
/// that they tell are reported; then points are fired until none may be; then the time goes on. The
/// run ends when the horizon's point is fired, or when a device fails, or its report comes early or
/// late.
pub fn fly<D: Device>(alloc: Global, plan: CheckedPlan, devices: &mut [D]) -> Result<Exec, Memory>
    requires one { length plan.plan.extensions ≡ 1 }
    requires many { length devices.old ≡ length plan.mission.vars }
    ensures many { length devices.new ≡ length devices.old }
    ensures flown { IfOk result (IsFlown plan (map (known D.polls D.faults) devices.old) (map (known D.polls D.faults) devices.new)) }
{
    let mut exec = launch(alloc, plan)?;
    fly_on(alloc, &mut exec, devices)?;
    Ok(exec)
}
