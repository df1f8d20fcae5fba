ghost use Rattle.std.specs.Prelude.{◌≡◌};
ghost use Rattle.hs_base.specs.Points.{count};
ghost use Rattle.dispatcher.specs.State.{points, time_in};
ghost use Rattle.line_view.specs.Lines.{line_in, line_seen};

use crate::current::{current_place, last_tick, next_mark, start_of, value_of};
use dispatcher::Dispatch;
use hs_base::{PointId, SvId, TokenRef, ValId};
use plan_check::CheckedPlan;

/// What is shown of a timeline: its current token, which is the first one that hasn't ended, and how
/// far the plan reaches. Times are ticks, 0 to 1,000,000.
#[derive(Clone, Copy, Debug, PartialEq, Eq)]
pub struct Line {
    /// The current token's place on its timeline, counted from 0.
    pub place: u32,
    /// Its value.
    pub value: ValId,
    /// The point that ends it.
    pub end: PointId,
    /// When it started.
    pub start: i64,
    /// The time now.
    pub time: i64,
    /// The point of the next horizon.
    pub mark: PointId,
    /// The number of extensions.
    pub plans: u32,
    /// When the newest horizon is.
    pub until: i64,
}

/// The line of the timeline of a variable, by a plan and its dispatch. Where no token is left, its place
/// is the one behind the last, and its end no point of the plan; where no horizon is left, the mark is Z.
pub fn line_of(plan: &CheckedPlan, dispatch: &Dispatch, sv: SvId) -> Line
    requires { points dispatch.now ≡ count plan.now.plan.extensions }
    ensures { line_seen result ≡ line_in plan.now.mission plan.now.plan.extensions (time_in dispatch.now) dispatch.now.tick sv.0 }
{
    let plans = plan.plan().extensions.len() as u32;
    let place = current_place(plan, dispatch, sv) as u32;
    let token = TokenRef { sv, place };
    Line {
        place,
        value: value_of(plan, token),
        end: plan.index().end(token),
        start: start_of(plan, dispatch, token),
        time: dispatch.now(),
        mark: next_mark(plan, dispatch),
        plans,
        until: last_tick(plan),
    }
}
