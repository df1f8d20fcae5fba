ghost use Rattle.std.specs.Prelude.{◌≡◌, ◌↔◌, ◌<◌, ◌≤◌, ◌+◌, ◌^◌, IsTrue, true, [], pos, length, vec_len, vec_capacity, None, Some, IfOk, OnOk, OnErr, MatchOption};
ghost use Rattle.hs_base.specs.Missions.{IsMission};
ghost use Rattle.hs_machine.specs.State.{now_of, plan_of, phase_of, is_failure, executes};
ghost use Rattle.hs_machine.specs.Machine.{Replies, Turn, tick, fire, report, broken, handover, line, done};
ghost use Rattle.exec_core.specs.Own.{IsOwn};
ghost use Rattle.exec_core.specs.Recorded.{MayRecord, recording};
ghost use Rattle.exec_core.specs.Replies.{reply_of};
ghost use Rattle.exec_core.specs.Next.{IsTurnedAway, MayTake, IsTurnedDown};

use crate::Reply;
use crate::decide::{decide_fire, decide_report, decide_tick, is_own};
use crate::flight::{Flight, entries_of};
use crate::next::not_next;
use horizon_handover::{Handed, Offer};
use hs_base::{Extension, Memory, Mission, PointId, Same, SvId};
use hs_machine::{Deed, Entry, Phase};
use line_view::line_of;
use plan_check::CheckedPlan;
use std::alloc::Global;
use std::marker::Model;

/// The executive of a mission. Contracts see it as its mission and its history, and each call as a
/// turn of the schedule machine.
#[derive(Drop)]
pub struct Exec {
    alloc: Global,
    mission: Mission,
    history: Vec<Entry>,
    failed: bool,
    live: Option<Flight>,
}

impl Model for Exec {
    ghost use Rattle.exec_core.specs.Recorded.{Recorded};
    ghost use Rattle.exec_core.specs.Kept.{IsKept};

    ghost Value = { Recorded };

    ghost view = { λ exec. record { mission = exec.mission; history = exec.history.items } };

    ghost invariant = { IsKept };
}

/// Takes memory for further entries of a history. A plan behind the one in execution isn't taken yet,
/// which is answered as want of memory.
fn take_room(history: &mut Vec<Entry>, live: &Option<Flight>, entries: usize) -> Result<(), Memory>
    ensures first { OnOk result (live.now ≡ None) }
    ensures items { history.new.items ≡ history.old.items }
    ensures len { vec_len history.new ≡ vec_len history.old }
    ensures ok { OnOk result (vec_len history.new + entries ≤ vec_capacity history.new) }
    ensures capacity { vec_capacity history.old ≤ vec_capacity history.new }
    ensures err { OnErr result (vec_capacity history.new ≡ vec_capacity history.old) }
{
    if live.is_some() {
        return Err(Memory);
    }
    history.reserve(entries)?;
    Ok(())
}

/// Puts a plan into execution.
fn put(live: &mut Option<Flight>, flight: Flight)
    ensures { live.new ≡ Some flight }
{
    *live = Some(flight);
}

impl Exec {
    /// The executive of a mission, which has done nothing.
    pub fn begin(alloc: Global, mission: Mission) -> Result<Exec, Memory>
        requires { IsMission mission }
        ensures { IfOk result (λ exec. exec ≡ record { mission = mission; history = [] }) }
    {
        Ok(Exec {
            alloc,
            mission,
            history: Vec::with_capacity(alloc, 1)?,
            failed: false,
            live: None,
        })
    }

    /// What was done, in order.
    pub fn history(&self) -> &[Entry]
        ensures { result.now ≡ self.now.history }
    {
        self.history.as_slice()
    }

    /// The tick now.
    pub fn now(&self) -> i64
        ensures { result ≡ pos (now_of self.now.history) }
    {
        match &self.live {
            Some(flight) => flight.dispatch.now(),
            None => 0,
        }
    }

    /// Where the run stands.
    pub fn phase(&self) -> Phase
        ensures { result ≡ phase_of self.now.history }
    {
        if self.failed {
            return Phase::Failed;
        }
        match &self.live {
            Some(flight) => {
                if flight.is_ended() {
                    Phase::Ended
                } else {
                    Phase::Running
                }
            }
            None => Phase::Waiting,
        }
    }

    /// The mission.
    pub fn mission(&self) -> &Mission
        ensures { result.now ≡ self.now.mission }
    {
        &self.mission
    }

    /// The newest plan, where one was handed over.
    pub fn plan(&self) -> Option<&CheckedPlan>
        ensures { MatchOption result (plan_of self.now.history ≡ []) (λ c. (c.now.mission ≡ self.now.mission) × (c.now.plan.extensions ≡ plan_of self.now.history)) }
    {
        match &self.live {
            Some(flight) => Some(&flight.plan),
            None => None,
        }
    }

    /// Whether the point is one of the newest plan that isn't executed yet, and that no device tells.
    pub fn is_own(&self, point: PointId) -> bool
        ensures { IsTrue result ↔ IsOwn self.now.mission self.now.history point.0 }
    {
        match &self.live {
            Some(flight) => is_own(&flight.dispatch, point),
            None => false,
        }
    }

    /// Shows the timeline of a variable: its current token, the time, and how far the plan reaches.
    pub fn line(&self, sv: SvId) -> Reply
        ensures { Replies self.now.mission self.now.history (line sv.0) (reply_of result) }
    {
        match self.refusal() {
            Some(refusal) => return refusal,
            None => {}
        }
        if sv.0 as usize >= self.mission.vars.len() {
            return Reply::NoPoint;
        }
        match &self.live {
            Some(flight) => Reply::Line(line_of(&flight.plan, &flight.dispatch, sv)),
            None => Reply::NoNet,
        }
    }

    /// The mission and the history.
    pub fn into_parts(self) -> (Mission, Vec<Entry>)
        ensures mission { result.0 ≡ self.mission }
        ensures history { result.1.items ≡ self.history }
    {
        let Exec {
            alloc: _,
            mission,
            history,
            failed: _,
            live: _,
        } = self;
        (mission, history)
    }

    /// Goes on to the next tick, where that is lawful. A point that has to be fired before is named;
    /// where only a device could have kept a bound, the run has failed.
    pub fn tick(&mut self, by: u32) -> Reply
        ensures turn { Turn self.old.mission self.old.history by tick (reply_of result) self.new.history }
        ensures mission { self.new.mission ≡ self.old.mission }
    {
        let reply = self.answer_tick();
        match reply {
            Reply::Done => self.advance(by),
            Reply::Failed { bound } => self.fail(by, Deed::Late(bound)),
            _ => {}
        }
        reply
    }

    /// Executes a point now, where it is lawful and no device tells it.
    pub fn fire(&mut self, by: u32, point: PointId) -> Reply
        ensures turn { Turn self.old.mission self.old.history by (fire point.0) (reply_of result) self.new.history }
        ensures mission { self.new.mission ≡ self.old.mission }
    {
        let reply = self.answer_fire(point);
        if let Reply::Done = reply {
            self.execute(by, Deed::Fire(point), point);
        }
        reply
    }

    /// Takes a device's report that a point is executed now. Where that breaks a bound, the run has
    /// failed.
    pub fn report(&mut self, by: u32, point: PointId) -> Reply
        ensures turn { Turn self.old.mission self.old.history by (report point.0) (reply_of result) self.new.history }
        ensures mission { self.new.mission ≡ self.old.mission }
    {
        let reply = self.answer_report(point);
        match reply {
            Reply::Done => self.execute(by, Deed::Report(point), point),
            Reply::Failed { bound } => self.fail(by, Deed::Early(bound)),
            _ => {}
        }
        reply
    }

    /// Takes in that the device of a variable failed, which ends the run.
    pub fn broken(&mut self, by: u32, device: SvId) -> Reply
        ensures turn { Turn self.old.mission self.old.history by (broken device.0) (reply_of result) self.new.history }
        ensures mission { self.new.mission ≡ self.old.mission }
    {
        let reply = self.answer_broken(device);
        if let Reply::Done = reply {
            self.fail(by, Deed::Broken(device));
        }
        reply
    }

    /// Takes a plan as the newest one, which is the one so far with one more extension. After want of
    /// memory nothing has changed; where it is done, no later event up to the plan's horizon wants
    /// memory.
    pub fn hand_over(&mut self, by: u32, offer: Offer) -> Reply
        ensures turn { Turn self.old.mission self.old.history by (handover offer.plan.mission offer.plan.plan.extensions) (reply_of result) self.new.history }
        ensures mission { self.new.mission ≡ self.old.mission }
    {
        if let Some(refusal) = self.refusal_of(&offer) {
            return refusal;
        }
        match self.take_in(by, offer) {
            Ok(()) => Reply::Done,
            Err(Memory) => Reply::Memory,
        }
    }

    /// The newest plan.
    fn newest(&self) -> &[Extension]
        ensures plan { result.now ≡ plan_of self.now.history }
        ensures few { length result.now < 2 ^ 32 }
    {
        match &self.live {
            Some(flight) => flight.plan.plan().extensions.as_slice(),
            None => &[],
        }
    }

    /// Why an offer isn't taken, where it isn't.
    fn refusal_of(&self, offer: &Offer) -> Option<Reply>
        ensures { MatchOption result (MayTake self.now offer.now.plan) (IsTurnedDown self.now offer.now.plan) }
    {
        match self.phase() {
            Phase::Failed => return Some(Reply::Over),
            Phase::Ended => return Some(Reply::Over),
            _ => {}
        }
        let plan = offer.plan();
        if !plan.mission().same(&self.mission) {
            return Some(Reply::OtherMission);
        }
        not_next(self.newest(), plan.plan().extensions.as_slice())
    }

    /// Takes an offer in.
    fn take_in(&mut self, by: u32, offer: Offer) -> Result<(), Memory>
        requires { MayTake self.old offer.plan }
        ensures ok { OnOk result (Turn self.old.mission self.old.history by (handover offer.plan.mission offer.plan.plan.extensions) done self.new.history) }
        ensures mission { self.new.mission ≡ self.old.mission }
        ensures err { OnErr result (self.new ≡ self.old) }
    {
        let entries = entries_of(offer.plan());
        take_room(&mut self.history, &self.live, entries)?;
        let Handed {
            live,
            extension,
            net,
        } = offer.launch();
        let extension = extension.unwrap();
        let deed = Deed::Handover { extension, net };
        self.history.push(Entry { by, deed }).unwrap();
        put(&mut self.live, Flight::begin(live));
        Ok(())
    }

    /// Why no event is taken that asks for a plan in execution, where none is.
    fn refusal(&self) -> Option<Reply>
        ensures { MatchOption result (phase_of self.now.history ≡ Phase.Running) (IsTurnedAway self.now) }
    {
        match self.phase() {
            Phase::Waiting => Some(Reply::NoNet),
            Phase::Running => None,
            Phase::Failed => Some(Reply::Over),
            Phase::Ended => Some(Reply::Over),
        }
    }

    /// How a tick is answered.
    fn answer_tick(&mut self) -> Reply
        ensures lawful { Replies self.old.mission self.old.history tick (reply_of result) }
        ensures same { self.new ≡ self.old }
    {
        match self.refusal() {
            Some(refusal) => return refusal,
            None => {}
        }
        match &mut self.live {
            Some(flight) => decide_tick(&mut flight.dispatch),
            None => Reply::NoNet,
        }
    }

    /// How the fire of a point is answered.
    fn answer_fire(&mut self, point: PointId) -> Reply
        ensures lawful { Replies self.old.mission self.old.history (fire point.0) (reply_of result) }
        ensures same { self.new ≡ self.old }
    {
        match self.refusal() {
            Some(refusal) => return refusal,
            None => {}
        }
        match &mut self.live {
            Some(flight) => decide_fire(&mut flight.dispatch, point),
            None => Reply::NoNet,
        }
    }

    /// How the report of a point is answered.
    fn answer_report(&mut self, point: PointId) -> Reply
        ensures lawful { Replies self.old.mission self.old.history (report point.0) (reply_of result) }
        ensures same { self.new ≡ self.old }
    {
        match self.refusal() {
            Some(refusal) => return refusal,
            None => {}
        }
        match &mut self.live {
            Some(flight) => decide_report(&mut flight.dispatch, point),
            None => Reply::NoNet,
        }
    }

    /// How the failure of a device is answered.
    fn answer_broken(&self, device: SvId) -> Reply
        ensures { Replies self.now.mission self.now.history (broken device.0) (reply_of result) }
    {
        match self.phase() {
            Phase::Failed => return Reply::Over,
            Phase::Ended => return Reply::Over,
            _ => {}
        }
        if device.0 as usize >= self.mission.vars.len() {
            return Reply::NoPoint;
        }
        Reply::Done
    }

    /// Takes a tick.
    fn advance(&mut self, by: u32)
        requires { Replies self.old.mission self.old.history tick done }
        ensures { self.new ≡ recording self.old by Deed.Tick }
    {
        let deed = Deed::Tick;
        self.history.push(Entry { by, deed }).unwrap();
        match &mut self.live {
            Some(flight) => flight.dispatch.advance(),
            None => {}
        }
    }

    /// Executes a point now.
    fn execute(&mut self, by: u32, deed: Deed, point: PointId)
        requires may { MayRecord self.old deed }
        requires is { executes deed ≡ Some point }
        ensures { self.new ≡ recording self.old by deed }
    {
        self.history.push(Entry { by, deed }).unwrap();
        match &mut self.live {
            Some(flight) => flight.dispatch.set(point),
            None => {}
        }
    }

    /// Ends the run by a failure.
    fn fail(&mut self, by: u32, deed: Deed)
        requires may { MayRecord self.old deed }
        requires failure { is_failure deed ≡ true }
        ensures { self.new ≡ recording self.old by deed }
    {
        self.failed = true;
        self.history.push(Entry { by, deed }).unwrap();
    }
}
