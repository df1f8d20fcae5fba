ghost use Rattle.std.specs.Prelude.{IfOk};
ghost use Rattle.hs_base.specs.Missions.{IsMission};

use crate::handovers::offer;
use exec_core::{Event, Exec, Offer, Reply};
use hs_base::{Bound, Fault, Memory, Mission, PointId, SvId};
use hs_machine::{Core, Deed, Entry, Phase};
use sample_missions::smallest;
use std::alloc::Global;
use std::test::Fail;

/// Some mission: which one isn't said.
fn mission(alloc: Global) -> Result<Mission, Memory>
    ensures { IfOk result IsMission }
{
    smallest(alloc)
}

fn executive(alloc: Global) -> Result<Exec, Memory> {
    Exec::begin(alloc, mission(alloc)?)
}

fn is_answered(exec: &mut Exec, event: Event, reply: Reply) -> bool {
    exec.apply(0, event) == reply
}

/// Whether so many ticks are taken.
fn go_on(exec: &mut Exec, ticks: u32) -> bool {
    for _ in 0..ticks {
        if exec.tick(0) != Reply::Done {
            return false;
        }
    }
    true
}

/// Whether no event is taken before a plan is handed over.
fn is_waiting(exec: &mut Exec) -> bool {
    let silent = is_answered(exec, Event::Fire(PointId(2)), Reply::NoNet);
    silent && exec.phase() == Phase::Waiting && exec.front() == 0
}

/// Whether a point is held by the bound that keeps it.
fn is_held(exec: &mut Exec, offer: Offer) -> bool {
    let bound = Bound {
        from: PointId(2),
        to: PointId(0),
        most: -2,
    };
    let handed = is_answered(exec, Event::Handover(offer), Reply::Done);
    let held = is_answered(exec, Event::Fire(PointId(2)), Reply::NotYet { bound });
    handed && held && exec.front() == 1
}

/// Whether a point is executed once, and no device tells it.
fn is_fired_once(exec: &mut Exec) -> bool {
    let own = is_answered(exec, Event::Report(PointId(2)), Reply::NotObserved);
    let fired = is_answered(exec, Event::Fire(PointId(2)), Reply::Done);
    let again = is_answered(exec, Event::Fire(PointId(2)), Reply::Already { at: 2 });
    let none = is_answered(exec, Event::Fire(PointId(4)), Reply::NoPoint);
    own && fired && again && none
}

/// Whether it is the history of a handover, two ticks and the first token's end.
fn is_first_turn(history: &[Entry]) -> bool {
    match history {
        [handed, one, two, fired] => {
            matches!(handed.deed, Deed::Handover { .. })
                && one.deed == Deed::Tick
                && two.deed == Deed::Tick
                && fired.deed == Deed::Fire(PointId(2))
        }
        _ => false,
    }
}

/// Whether the run ends with the horizon, before which no tick is taken past it.
fn is_ended(exec: &mut Exec) -> bool {
    let far = go_on(exec, 8);
    let horizon = PointId(1);
    let due = is_answered(exec, Event::Tick, Reply::Due { point: horizon });
    let ended = is_answered(exec, Event::Fire(horizon), Reply::Done);
    let over = is_answered(exec, Event::Tick, Reply::Over);
    far && due && ended && over && exec.now() == 10 && exec.phase() == Phase::Ended
}

/// Whether an executive waits for the plan, holds a point, executes it once, and ends.
fn runs(exec: &mut Exec, offer: Offer) -> bool {
    let waiting = is_waiting(exec);
    let held = is_held(exec, offer);
    let fired = go_on(exec, 2) && is_fired_once(exec) && is_first_turn(exec.history());
    waiting && held && fired && is_ended(exec)
}

/// Whether the failure of a device ends the run, where there is such a variable.
fn breaks(exec: &mut Exec, offer: Offer) -> bool {
    let handed = is_answered(exec, Event::Handover(offer), Reply::Done);
    let none = is_answered(exec, Event::Broken(SvId(1)), Reply::NoPoint);
    let broken = is_answered(exec, Event::Broken(SvId(0)), Reply::Done);
    let over = is_answered(exec, Event::Report(PointId(2)), Reply::Over);
    handed && none && broken && over && exec.phase() == Phase::Failed
}

/// What an executive is led to.
#[derive(Clone, Copy)]
enum End {
    Horizon,
    Failure,
}

fn is_led(alloc: Global, exec: &mut Exec, end: End) -> Result<bool, Fault> {
    let offer = offer(alloc)?;
    Ok(match end {
        End::Horizon => runs(exec, offer),
        End::Failure => breaks(exec, offer),
    })
}

/// Whether an executive of the smallest mission is led to that end.
fn leads(alloc: Global, end: End) -> Result<bool, Fault> {
    let mut exec = executive(alloc)?;
    is_led(alloc, &mut exec, end)
}

#[test]
fn runs_to_the_horizon(rt: HostRuntime) -> Result<(), Fail> {
    assert!(rt; matches!(leads(rt.alloc(), End::Horizon), Ok(true)));
    Ok(())
}

#[test]
fn ends_with_a_failure(rt: HostRuntime) -> Result<(), Fail> {
    assert!(rt; matches!(leads(rt.alloc(), End::Failure), Ok(true)));
    Ok(())
}
