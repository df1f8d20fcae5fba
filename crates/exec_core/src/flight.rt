ghost use Rattle.std.specs.Prelude.{◌≡◌, ◌≢◌, ◌<◌, ◌≤◌, ◌≤ℤ◌, ◌+◌, ◌-◌, [], pos, ◌+ℤ◌, is_some, length, slice_get, Some};
ghost use Rattle.hs_base.specs.Points.{count, hor};
ghost use Rattle.hs_base.specs.declared.mission.Horizon.{Horizon as AHorizon};
ghost use Rattle.dispatcher.specs.State.{points, time_in};

use dispatcher::Dispatch;
use horizon_handover::Live;
use hs_base::{Horizon, PointId};
use plan_check::CheckedPlan;
use token_net::{horizon_point, points};

/// The newest plan in execution, and its horizon's point.
#[derive(Drop)]
pub struct Flight {
    pub plan: CheckedPlan,
    pub dispatch: Dispatch,
    pub mark: PointId,
}

impl Flight {
    /// The flight of a plan that was bound.
    pub fn begin(live: Live) -> Flight
        requires { live.plan.plan.extensions ≢ [] }
        ensures plan { result.plan ≡ live.plan }
        ensures dispatch { result.dispatch ≡ live.dispatch }
        ensures mark { result.mark.0 ≡ hor live.plan.plan.extensions (length live.plan.plan.extensions) }
    {
        let Live { plan, dispatch } = live;
        let extensions = plan.plan().extensions.len();
        let mark = horizon_point(plan.plan(), extensions as u32);
        Flight {
            plan,
            dispatch,
            mark,
        }
    }

    /// Whether the horizon's point was executed.
    pub fn is_ended(&self) -> bool
        requires { self.now.mark.0 < points self.now.dispatch }
        ensures { result ≡ is_some (time_in self.now.dispatch self.now.mark.0) }
    {
        self.dispatch.time(self.mark).is_some()
    }
}

/// The tick of a horizon.
fn ticks_to(horizon: &Horizon) -> usize
    requires low { pos 0 ≤ℤ horizon.now.tick }
    requires high { horizon.now.tick ≤ℤ pos 1000000 }
    ensures value { pos result ≡ horizon.now.tick }
    ensures high { result ≤ 1000000 }
{
    horizon.tick as usize
}

/// How many entries a history gains at most up to the plan's horizon: one for each tick and for each
/// point, the handover, and a failure.
pub fn entries_of(plan: &CheckedPlan) -> usize
    requires { plan.now.plan.extensions ≢ [] }
    ensures value { (g : AHorizon) → slice_get plan.now.mission.horizons (length plan.now.plan.extensions - 1) ≡ Some g → pos result ≡ pos (count plan.now.plan.extensions + 2) +ℤ g.tick }
    ensures some { 2 ≤ result }
{
    let last = plan.plan().extensions.len() - 1;
    let ticks = ticks_to(&plan.mission().horizons[last]);
    points(plan.plan()) as usize + ticks + 2
}
