ghost use Rattle.std.specs.Prelude.{◌≡◌, ◌-◌, ◌<◌, List, None, length, map};
ghost use Rattle.std.specs.Bool.{OnFalse, OnTrue};
ghost use Rattle.hs_machine.specs.declared.history.Deed.TheVariants.{Broken};
ghost use Rattle.hs_machine.specs.Machine.{Replies, broken, done};
ghost use Rattle.hs_machine.specs.State.{now_of};
ghost use Rattle.exec_core.specs.Recorded.{recording};
ghost use Rattle.simulation_laws.specs.Standing.{HasJustBegun};
ghost use Rattle.sim_run.specs.Told.{Known, known};
ghost use Rattle.sim_run.specs.Manned.{IsManned, rests};
ghost use Rattle.sim_run.specs.Moves.{GoesOn, IsGoing, IsOver};
ghost use Rattle.sim_run.specs.Parts.{ComesEarly, HasEnded, IsAsked, IsAwaited, IsCrewed, IsReady, IsReported, IsTicked};

use crate::asking::{Heard, hear};
use crate::post::Post;
use crate::watch::{OWN, Watch};
use exec_core::{Exec, Reply};
use hs_base::{PointId, SvId};
use hs_port::Device;

/// What came of the polls of a tick.
#[derive(Clone, Copy, Debug, PartialEq, Eq)]
pub enum Polled {
    /// No device reported an end.
    Quiet,
    /// A device did.
    Reported,
    /// A device ended the run.
    Over,
}

/// Tells the executive that a device ended a token; says whether the run goes on.
fn report(exec: &mut Exec, end: PointId) -> bool
    requires going { IsGoing exec.old }
    requires awaited { IsAwaited end exec.old }
    ensures done { OnTrue result (IsReported end exec.old exec.new) }
    ensures early { OnFalse result (ComesEarly end exec.old exec.new) }
{
    match exec.report(OWN, end) {
        Reply::Done => true,
        _ => false,
    }
}

/// Tells the executive that a device failed, which ends the run.
pub fn break_down(exec: &mut Exec, sv: SvId)
    requires going { IsGoing exec.old }
    requires there { sv.0 < length exec.old.mission.vars }
    ensures broken { exec.new ≡ recording exec.old OWN (Broken sv) }
    ensures lawful { Replies exec.old.mission exec.old.history (broken sv.0) done }
{
    exec.broken(OWN, sv);
}

/// Ends the script of a post, and reports its token's end.
fn finish(exec: &mut Exec, post: &mut Post) -> Polled
    requires going { IsGoing exec.old }
    requires awaited { IsAwaited post.old.end exec.old }
    ensures post { post.new ≡ record { end = post.old.end; script = None } }
    ensures quiet { result ≡ Polled.Quiet → ⊥ }
    ensures done { result ≡ Polled.Reported → IsReported post.old.end exec.old exec.new }
    ensures early { result ≡ Polled.Over → ComesEarly post.old.end exec.old exec.new }
{
    post.script = None;
    if report(exec, post.end) {
        Polled::Reported
    } else {
        Polled::Over
    }
}

/// Polls the device of a variable, where its script runs.
fn poll<D: Device>(exec: &mut Exec, sv: SvId, device: &mut D, post: &mut Post) -> Polled
    ghost before: { Known }
    requires going { IsGoing exec.old }
    requires there { sv.0 < length exec.old.mission.vars }
    requires tick { 0 < now_of exec.old.history }
    requires manned { IsManned rests exec.old.mission exec.old.history sv.0 (now_of exec.old.history - 1) before (known D.polls D.faults device.old) post.old }
    ensures end { post.new.end ≡ post.old.end }
    ensures quiet { result ≡ Polled.Quiet → (exec.new ≡ exec.old) × IsManned rests exec.old.mission exec.old.history sv.0 (now_of exec.old.history) before (known D.polls D.faults device.new) post.new }
    ensures reported { result ≡ Polled.Reported → IsAsked sv.0 exec.old exec.new before (known D.polls D.faults device.new) post.new }
    ensures over { result ≡ Polled.Over → HasEnded sv.0 exec.old exec.new before (known D.polls D.faults device.new) }
{
    let Some(script) = &mut post.script else {
        return Polled::Quiet;
    };
    match hear(device, script, exec.now()) {
        Heard::On => Polled::Quiet,
        Heard::Finished => finish(exec, post),
        Heard::Failed => {
            break_down(exec, sv);
            Polled::Over
        }
    }
}

/// Polls the devices whose scripts run, by variable.
pub fn poll_all<D: Device>(exec: &mut Exec, devices: &mut [D], watch: &mut Watch) -> Polled
    ghost before: { List Known }
    requires { IsTicked exec.old before (map (known D.polls D.faults) devices.old) watch.old }
    ensures many { length devices.new ≡ length devices.old }
    ensures quiet { result ≡ Polled.Quiet → (exec.new ≡ exec.old) × IsReady exec.new before (map (known D.polls D.faults) devices.new) watch.new }
    ensures reported { result ≡ Polled.Reported → GoesOn exec.old exec.new × IsCrewed (HasJustBegun (now_of exec.new.history)) exec.new before (map (known D.polls D.faults) devices.new) watch.new.posts.items }
    ensures over { result ≡ Polled.Over → GoesOn exec.old exec.new × IsOver before (map (known D.polls D.faults) devices.new) exec.new }
{
    let mut polled = Polled::Quiet;
    for i in 0..devices.len() {
        match poll(exec, SvId(i as u32), &mut devices[i], &mut watch.posts[i]) {
            Polled::Quiet => {}
            Polled::Reported => polled = Polled::Reported,
            Polled::Over => return Polled::Over,
        }
    }
    polled
}
