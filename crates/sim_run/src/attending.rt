ghost use Rattle.std.specs.Prelude.{◌≡◌, ◌<◌, List, [], IfOk, length, map};
ghost use Rattle.std.specs.Bool.{OnFalse, OnTrue};
ghost use Rattle.hs_base.specs.Missions.{IsMission};
ghost use Rattle.hs_base.specs.Points.{value_of};
ghost use Rattle.hs_machine.specs.declared.history.Deed.TheVariants.{Broken};
ghost use Rattle.hs_machine.specs.Machine.{Replies, broken, done};
ghost use Rattle.hs_machine.specs.State.{now_of};
ghost use Rattle.hs_machine.specs.Views.{line_of};
ghost use Rattle.exec_core.specs.Recorded.{recording};
ghost use Rattle.line_view.specs.Lines.{line_seen};
ghost use Rattle.simulation_laws.specs.Standing.{HasJustBegun};
ghost use Rattle.sim_run.specs.Told.{HasFailed, HasTold, Known, known};
ghost use Rattle.sim_run.specs.Manned.{IsManned};
ghost use Rattle.sim_run.specs.Moves.{GoesOn, IsGoing, IsOver};
ghost use Rattle.sim_run.specs.Parts.{AreLookedAt, HasEnded, IsCrewed, IsLookedAt, IsReady, IsScriptOf};

use crate::asking::tell_begin;
use crate::polling::break_down;
use crate::post::Post;
use crate::watch::{OWN, Watch};
use device_script::Runner;
use exec_core::{Exec, Reply};
use hs_base::{Kind, Memory, PointId, SvId, ValId};
use hs_port::Device;
use line_view::Line;
use std::alloc::Global;

/// What the executive shows of the timeline of a variable.
fn line_at(exec: &Exec, sv: SvId) -> Line
    requires going { IsGoing exec.now }
    requires there { sv.0 < length exec.now.mission.vars }
    ensures { line_seen result ≡ line_of exec.now.mission exec.now.history sv.0 }
{
    match exec.line(sv) {
        Reply::Line(line) => line,
        // A run in which a plan is in execution shows each of its timelines.
        _ => unreachable!(),
    }
}

/// The script of a value, where a device ends its tokens.
fn script_of(alloc: Global, exec: &Exec, sv: SvId, value: ValId) -> Result<Option<Runner>, Memory>
    requires { IsMission exec.now.mission }
    ensures { IfOk result (IsScriptOf (value_of exec.now.mission (record { sv = sv; value = value }))) }
{
    match exec.mission().value(Kind { sv, value }) {
        Some(value) if value.by_device => Ok(Some(Runner::begin(alloc, value)?)),
        _ => Ok(None),
    }
}

/// Begins the script of a timeline's current token at its device. Says whether the run goes on.
fn begin<D: Device>(
    exec: &mut Exec,
    sv: SvId,
    device: &mut D,
    script: &mut Runner,
    line: &Line,
) -> bool
    requires going { IsGoing exec.old }
    requires there { sv.0 < length exec.old.mission.vars }
    ensures left { script.new.left ≡ script.old.left }
    ensures began { OnTrue result ((exec.new ≡ exec.old) × HasTold (known D.polls D.faults device.old) (known D.polls D.faults device.new) []) }
    ensures lawful { OnFalse result (Replies exec.old.mission exec.old.history (broken sv.0) done) }
    ensures broken { OnFalse result ((exec.new ≡ recording exec.old OWN (Broken sv)) × HasFailed (known D.polls D.faults device.old) (known D.polls D.faults device.new)) }
{
    match tell_begin(device, script, line.value, line.time) {
        Ok(()) => true,
        Err(_) => {
            break_down(exec, sv);
            false
        }
    }
}

/// Looks at a timeline: notes where its current token ends, and begins the token's script where a
/// device ends it. Says whether the run goes on.
fn attend<D: Device>(
    alloc: Global,
    exec: &mut Exec,
    sv: SvId,
    device: &mut D,
    post: &mut Post,
) -> Result<bool, Memory>
    ghost before: { Known }
    requires going { IsGoing exec.old }
    requires there { sv.0 < length exec.old.mission.vars }
    requires manned { IsManned (HasJustBegun (now_of exec.old.history)) exec.old.mission exec.old.history sv.0 (now_of exec.old.history) before (known D.polls D.faults device.old) post.old }
    ensures goes_on { IfOk result (λ on. OnTrue on (IsLookedAt sv.0 exec.old exec.new before (known D.polls D.faults device.new) post.new)) }
    ensures ended { IfOk result (λ on. OnFalse on (HasEnded sv.0 exec.old exec.new before (known D.polls D.faults device.new))) }
{
    if post.script.is_some() {
        return Ok(true);
    }
    let line = line_at(exec, sv);
    post.end = line.end;
    let Some(mut script) = script_of(alloc, exec, sv, line.value)? else {
        return Ok(true);
    };
    let goes_on = begin(exec, sv, device, &mut script, &line);
    post.script = Some(script);
    Ok(goes_on)
}

/// The point of the next horizon.
fn next_mark(exec: &Exec) -> PointId
    requires { IsGoing exec.now }
    ensures { result.0 ≡ (line_of exec.now.mission exec.now.history 0).mark }
{
    line_at(exec, SvId(0)).mark
}

/// Looks at each timeline. Says whether the run goes on.
fn attend_each<D: Device>(
    alloc: Global,
    exec: &mut Exec,
    devices: &mut [D],
    posts: &mut Vec<Post>,
) -> Result<bool, Memory>
    ghost before: { List Known }
    requires { IsCrewed (HasJustBegun (now_of exec.old.history)) exec.old before (map (known D.polls D.faults) devices.old) posts.old.items }
    ensures many { length devices.new ≡ length devices.old }
    ensures goes_on { IfOk result (λ on. OnTrue on (AreLookedAt exec.old exec.new before (map (known D.polls D.faults) devices.new) posts.new.items)) }
    ensures over { IfOk result (λ on. OnFalse on (GoesOn exec.old exec.new × IsOver before (map (known D.polls D.faults) devices.new) exec.new)) }
{
    for i in 0..devices.len() {
        if !attend(alloc, exec, SvId(i as u32), &mut devices[i], &mut posts[i])? {
            return Ok(false);
        }
    }
    Ok(true)
}

/// Looks at each timeline, and at the next horizon's point. Says whether the run goes on.
pub fn attend_all<D: Device>(
    alloc: Global,
    exec: &mut Exec,
    devices: &mut [D],
    watch: &mut Watch,
) -> Result<bool, Memory>
    ghost before: { List Known }
    requires { IsCrewed (HasJustBegun (now_of exec.old.history)) exec.old before (map (known D.polls D.faults) devices.old) watch.old.posts.items }
    ensures many { length devices.new ≡ length devices.old }
    ensures goes_on { IfOk result (λ on. OnTrue on ((exec.new ≡ exec.old) × IsReady exec.new before (map (known D.polls D.faults) devices.new) watch.new)) }
    ensures over { IfOk result (λ on. OnFalse on (GoesOn exec.old exec.new × IsOver before (map (known D.polls D.faults) devices.new) exec.new)) }
{
    if !attend_each(alloc, exec, devices, &mut watch.posts)? {
        return Ok(false);
    }
    watch.mark = next_mark(exec);
    Ok(true)
}
