ghost use Rattle.std.specs.Prelude.{◌≡◌, ◌<◌, ◌≤◌, All, length, map, pos, unwrap_or};
ghost use Rattle.hs_base.specs.Points.{count, start, timeline_of, tokens_of};
ghost use Rattle.hs_machine.specs.Views.{first_waiting};
ghost use Rattle.dispatcher.specs.State.{points, time_in};
ghost use Rattle.plan_index.specs.declared.placed.PlacedToken.{PlacedToken as APlacedToken};
ghost use Rattle.line_view.specs.Lines.{mark_in, place_in, until_in, value_in};

use dispatcher::Dispatch;
use hs_base::{PointId, SvId, TokenRef, ValId};
use plan_check::CheckedPlan;
use plan_index::PlacedToken;

/// How many of a timeline's tokens have ended, up to the first one that hasn't.
fn first_waiting(tokens: &[PlacedToken], dispatch: &Dispatch) -> usize
    requires { All (λ (p : APlacedToken). p.end.0 < points dispatch.now) tokens.now }
    ensures { result ≡ first_waiting (time_in dispatch.now) (map (λ (p : APlacedToken). p.end.0) tokens.now) }
{
    for (i, token) in tokens.iter().enumerate() {
        if dispatch.time(token.end).is_none() {
            return i;
        }
    }
    tokens.len()
}

/// The place of the current token of a timeline.
pub(crate) fn current_place(plan: &CheckedPlan, dispatch: &Dispatch, sv: SvId) -> usize
    requires { points dispatch.now ≡ count plan.now.plan.extensions }
    ensures place { result ≡ place_in plan.now.plan.extensions (time_in dispatch.now) sv.0 }
    ensures within { result ≤ length (timeline_of (tokens_of plan.now.plan.extensions) sv.0) }
{
    first_waiting(plan.index().timeline(sv), dispatch)
}

/// The value of a token; the first one where the plan doesn't have the token.
pub(crate) fn value_of(plan: &CheckedPlan, token: TokenRef) -> ValId
    ensures { result.0 ≡ value_in plan.now.plan.extensions token.sv.0 token.place }
{
    match plan.index().token(token) {
        Some(kind) => kind.value,
        None => ValId(0),
    }
}

/// When a token started; 0 where it hasn't.
pub(crate) fn start_of(plan: &CheckedPlan, dispatch: &Dispatch, token: TokenRef) -> i64
    requires points { points dispatch.now ≡ count plan.now.plan.extensions }
    requires within { token.place ≤ length (timeline_of (tokens_of plan.now.plan.extensions) token.sv.0) }
    ensures { result ≡ unwrap_or (time_in dispatch.now (start plan.now.plan.extensions token)) (pos 0) }
{
    let start = plan.index().start(token);
    dispatch.time(start).unwrap_or(0)
}

/// The point of the next horizon, or Z where none is left.
pub(crate) fn next_mark(plan: &CheckedPlan, dispatch: &Dispatch) -> PointId
    requires { points dispatch.now ≡ count plan.now.plan.extensions }
    ensures { result.0 ≡ mark_in plan.now.plan.extensions (time_in dispatch.now) }
{
    let extensions = &plan.plan().extensions;
    for k in 0..extensions.len() {
        let mark = plan.index().horizon(k as u32 + 1);
        if dispatch.time(mark).is_none() {
            return mark;
        }
    }
    PointId(0)
}

/// The tick of the newest horizon.
pub(crate) fn last_tick(plan: &CheckedPlan) -> i64
    ensures { result ≡ until_in plan.now.mission plan.now.plan.extensions }
{
    let newest = plan.plan().extensions.len().saturating_sub(1);
    match plan.mission().horizons.as_slice().get(newest) {
        Some(horizon) => horizon.tick,
        None => 0,
    }
}
