ghost use Rattle.std.specs.Prelude.{◌≡◌, All, IfNone, IfOk, IfSome, MatchOption};
ghost use Rattle.hs_base.specs.declared.net.Bound.{Bound};
ghost use Rattle.hs_base.specs.Points.{count};
ghost use Rattle.hs_base.specs.Schedule.{IsBelow};
ghost use Rattle.hs_machine.specs.Run.{Run};
ghost use Rattle.hs_machine.specs.State.{plan_of};
ghost use Rattle.simulation_laws.specs.Ended.{IsFailedBy};
ghost use Rattle.run_reasons.specs.Reasons.{IsReason};

use hs_base::{Bound, List, Memory};
use hs_machine::{Deed, Entry};
use plan_check::{CheckedPlan, reason};
use std::alloc::Global;
use stn_distance::Why;

/// The bound that the last entry names, where it is a late or an early one.
fn failed_by(history: &[Entry]) -> Option<Bound>
    ensures { MatchOption result ((b : Bound) → IsFailedBy history.now b → ⊥) (IsFailedBy history.now) }
{
    match history.last()?.deed {
        Deed::Late(bound) | Deed::Early(bound) => Some(bound),
        _ => None,
    }
}

/// Bounds of the plan that force the bound by which a run of it failed, where it ended with a late
/// or an early entry. `plan` is the newest plan of the history.
pub fn why_failed(
    alloc: Global,
    plan: &CheckedPlan,
    history: &[Entry],
) -> Result<Option<List<Bound>>, Memory>
    requires run { Run plan.now.mission history.now }
    requires plan { plan.now.plan.extensions ≡ plan_of history.now }
    ensures chain { IfOk result (λ o. IfSome o (IsReason plan.now.mission history.now)) }
    ensures none { IfOk result (λ o. IfNone o ((b : Bound) → IsFailedBy history.now b → ⊥)) }
    ensures points { IfOk result (λ o. IfSome o (All (IsBelow (count plan.now.plan.extensions)))) }
{
    let Some(bound) = failed_by(history) else {
        return Ok(None);
    };
    match reason(alloc, plan, bound)? {
        Why::Chain(chain) => Ok(Some(chain)),
        Why::Free(_) => unreachable!(),
    }
}
