ghost use Rattle.std.specs.Prelude.{◌≡◌, ◌<◌, ◌↔◌, IsTrue, false, None, MatchOption};
ghost use Rattle.hs_machine.specs.Machine.{TickReply, PointReply, OwnReply, FireReply, ReportReply};
ghost use Rattle.dispatcher.specs.State.{points, moment, is_observed, IsOpen};
ghost use Rattle.exec_core.specs.Replies.{reply_of};

use crate::Reply;
use dispatcher::Dispatch;
use hs_base::PointId;

/// How a tick is answered.
pub fn decide_tick(dispatch: &mut Dispatch) -> Reply
    ensures reply { TickReply (moment dispatch.old) (reply_of result) }
    ensures same { dispatch.new ≡ dispatch.old }
{
    if dispatch.may_tick() {
        return Reply::Done;
    }
    if let Some(point) = dispatch.must_fire() {
        return Reply::Due { point };
    }
    match dispatch.late() {
        Some(bound) => Reply::Failed { bound },
        None => Reply::Done,
    }
}

/// Why no event of that point is looked at, where it doesn't exist or was executed.
fn refusal_of(dispatch: &Dispatch, point: PointId) -> Option<Reply>
    ensures { MatchOption result (IsOpen dispatch.now point.0) (λ refusal. PointReply (moment dispatch.now) point.0 (reply_of refusal) ⊥) }
{
    if point.0 as usize >= dispatch.points() {
        return Some(Reply::NoPoint);
    }
    let at = dispatch.time(point)?;
    Some(Reply::Already { at })
}

/// How the fire of an open point that isn't observed is answered.
fn decide_own(dispatch: &mut Dispatch, point: PointId) -> Reply
    requires { IsOpen dispatch.old point.0 }
    ensures reply { OwnReply (moment dispatch.old) point.0 (reply_of result) }
    ensures same { dispatch.new ≡ dispatch.old }
{
    if let Some(point) = dispatch.tied(point) {
        return Reply::Waits { point };
    }
    match dispatch.may_fire(point) {
        Ok(()) => Reply::Done,
        Err(bound) => Reply::NotYet { bound },
    }
}

/// How the fire of a point is answered.
pub fn decide_fire(dispatch: &mut Dispatch, point: PointId) -> Reply
    ensures reply { FireReply (moment dispatch.old) point.0 (reply_of result) }
    ensures same { dispatch.new ≡ dispatch.old }
{
    match refusal_of(dispatch, point) {
        Some(refusal) => refusal,
        None => {
            if dispatch.is_observed(point) {
                Reply::Observed
            } else {
                decide_own(dispatch, point)
            }
        }
    }
}

/// How the report of a point is answered.
pub fn decide_report(dispatch: &mut Dispatch, point: PointId) -> Reply
    ensures reply { ReportReply (moment dispatch.old) point.0 (reply_of result) }
    ensures same { dispatch.new ≡ dispatch.old }
{
    if let Some(refusal) = refusal_of(dispatch, point) {
        return refusal;
    }
    if !dispatch.is_observed(point) {
        return Reply::NotObserved;
    }
    match dispatch.may_fire(point) {
        Ok(()) => Reply::Done,
        Err(bound) => Reply::Failed { bound },
    }
}

/// Whether the point is open and no device tells it.
pub fn is_own(dispatch: &Dispatch, point: PointId) -> bool
    ensures { IsTrue result ↔ (IsOpen dispatch.now point.0 × (is_observed dispatch.now point.0 ≡ false)) }
{
    (point.0 as usize) < dispatch.points()
        && dispatch.time(point).is_none()
        && !dispatch.is_observed(point)
}
