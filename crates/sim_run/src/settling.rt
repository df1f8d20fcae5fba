ghost use Rattle.std.specs.Prelude.{◌≡◌, ◌≢◌, List, IfOk, length, map};
ghost use Rattle.std.specs.Bool.{OnFalse, OnTrue};
ghost use Rattle.hs_machine.specs.declared.history.Phase.TheVariants.{Running};
ghost use Rattle.hs_machine.specs.Eager.{NoneMayFire};
ghost use Rattle.hs_machine.specs.Machine.{Replies, done, fire};
ghost use Rattle.hs_machine.specs.State.{phase_of};
ghost use Rattle.sim_run.specs.Told.{Known, known};
ghost use Rattle.sim_run.specs.Moves.{GoesFurther, GoesOn, IsGoing, IsOver};
ghost use Rattle.sim_run.specs.Parts.{IsFired, IsReady, IsRefused};

use crate::attending::attend_all;
use crate::watch::{OWN, Watch};
use exec_core::{Exec, Reply};
use hs_base::{Memory, PointId};
use hs_machine::Phase;
use hs_port::Device;
use std::alloc::Global;

/// What became of an attempt to fire points.
#[derive(Clone, Copy, Debug, PartialEq, Eq)]
pub enum Tried {
    /// None may be fired.
    Refused,
    /// One was fired.
    Fired,
    /// The run is over.
    Over,
}

/// Fires a point, where it may be; says whether it was.
fn fires(exec: &mut Exec, point: PointId) -> bool
    requires { IsGoing exec.old }
    ensures fired { OnTrue result (IsFired point exec.old exec.new) }
    ensures same { OnFalse result (exec.new ≡ exec.old) }
    ensures unlawful { OnFalse result (Replies exec.old.mission exec.old.history (fire point.0) done → ⊥) }
{
    match exec.fire(OWN, point) {
        Reply::Done => true,
        _ => false,
    }
}

/// Whether a plan is in execution.
fn is_going(exec: &Exec) -> bool
    ensures yes { OnTrue result (phase_of exec.now.history ≡ Running) }
    ensures no { OnFalse result (phase_of exec.now.history ≢ Running) }
{
    match exec.phase() {
        Phase::Running => true,
        _ => false,
    }
}

/// Tries a point; where it is fired and the run goes on, each timeline is looked at again.
fn try_point<D: Device>(
    alloc: Global,
    exec: &mut Exec,
    devices: &mut [D],
    watch: &mut Watch,
    point: PointId,
) -> Result<Tried, Memory>
    ghost before: { List Known }
    requires { IsReady exec.old before (map (known D.polls D.faults) devices.old) watch.old }
    ensures many { length devices.new ≡ length devices.old }
    ensures refused { IfOk result (λ tried. tried ≡ Tried.Refused → IsRefused point exec.old exec.new watch.old watch.new (map (known D.polls D.faults) devices.old) (map (known D.polls D.faults) devices.new)) }
    ensures fired { IfOk result (λ tried. tried ≡ Tried.Fired → GoesFurther exec.old exec.new × IsReady exec.new before (map (known D.polls D.faults) devices.new) watch.new) }
    ensures over { IfOk result (λ tried. tried ≡ Tried.Over → GoesOn exec.old exec.new × IsOver before (map (known D.polls D.faults) devices.new) exec.new) }
{
    if !fires(exec, point) {
        return Ok(Tried::Refused);
    }
    if !is_going(exec) {
        return Ok(Tried::Over);
    }
    if attend_all(alloc, exec, devices, watch)? {
        Ok(Tried::Fired)
    } else {
        Ok(Tried::Over)
    }
}

/// Tries each point that is watched, by number.
fn pass<D: Device>(
    alloc: Global,
    exec: &mut Exec,
    devices: &mut [D],
    watch: &mut Watch,
) -> Result<Tried, Memory>
    ghost before: { List Known }
    requires { IsReady exec.old before (map (known D.polls D.faults) devices.old) watch.old }
    ensures many { length devices.new ≡ length devices.old }
    ensures still { IfOk result (λ tried. tried ≡ Tried.Refused → (exec.new ≡ exec.old) × NoneMayFire exec.new.mission exec.new.history × IsReady exec.new before (map (known D.polls D.faults) devices.new) watch.new) }
    ensures fired { IfOk result (λ tried. tried ≡ Tried.Fired → GoesFurther exec.old exec.new × IsReady exec.new before (map (known D.polls D.faults) devices.new) watch.new) }
    ensures over { IfOk result (λ tried. tried ≡ Tried.Over → GoesOn exec.old exec.new × IsOver before (map (known D.polls D.faults) devices.new) exec.new) }
{
    let mut tried = Tried::Refused;
    let mut from = 0;
    'points: while let Some(point) = watch.next_from(from) {
        from = point.0 as u64 + 1;
        match try_point(alloc, exec, devices, watch, point)? {
            Tried::Refused => {}
            Tried::Fired => tried = Tried::Fired,
            Tried::Over => return Ok(Tried::Over),
        }
    }
    Ok(tried)
}

/// Fires points until none may be fired at this tick. Says whether the run goes on.
pub fn settle<D: Device>(
    alloc: Global,
    exec: &mut Exec,
    devices: &mut [D],
    watch: &mut Watch,
) -> Result<bool, Memory>
    ghost before: { List Known }
    requires { IsReady exec.old before (map (known D.polls D.faults) devices.old) watch.old }
    ensures many { length devices.new ≡ length devices.old }
    ensures settled { IfOk result (λ on. OnTrue on (GoesOn exec.old exec.new × NoneMayFire exec.new.mission exec.new.history × IsReady exec.new before (map (known D.polls D.faults) devices.new) watch.new)) }
    ensures over { IfOk result (λ on. OnFalse on (GoesOn exec.old exec.new × IsOver before (map (known D.polls D.faults) devices.new) exec.new)) }
{
    'passes: loop {
        match pass(alloc, exec, devices, watch)? {
            Tried::Refused => return Ok(true),
            Tried::Fired => {}
            Tried::Over => return Ok(false),
        }
    }
}
