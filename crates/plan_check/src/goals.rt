ghost use Rattle.std.specs.Prelude.{◌≡◌, ◌↔◌, slice_get, IsTrue, OnOk, IfErr};
ghost use Rattle.hs_base.specs.Points.{tokens_of};
ghost use Rattle.hs_base.specs.Missions.{IsMission};
ghost use Rattle.hs_base.specs.Checked.{joined, KeepsGoals, goals, KeepsBefore};
ghost use Rattle.hs_base.specs.Faults.{IsFault};
ghost use Rattle.plan_check.specs.Meeting.{IsMetIn};

use hs_base::{Extension, Fault, Goal, Mission, Plan, TokenRef};
use plan_index::PlanIndex;

/// Whether a goal's entry is a token of its kind.
fn is_met(index: &PlanIndex, goal: &Goal, entries: &[TokenRef], i: usize) -> bool
    ensures { IsTrue result ↔ IsMetIn index.now.tokens goal.now (slice_get entries.now i) }
{
    let Some(token) = entries.get(i) else {
        return false;
    };
    match index.token(*token) {
        Some(kind) => kind.is(goal.kind),
        None => false,
    }
}

/// Whether each goal of the next horizon has its entry, and there are no further entries.
pub(crate) fn check_goals(
    mission: &Mission,
    plan: &Plan,
    index: &PlanIndex,
    extension: &Extension,
) -> Result<(), Fault>
    requires mission { IsMission mission.now }
    requires before { KeepsBefore mission.now plan.now.extensions extension.now goals }
    requires tokens { index.now.tokens ≡ tokens_of (joined plan.now.extensions extension.now) }
    ensures kept { OnOk result (KeepsGoals mission.now plan.now.extensions extension.now) }
    ensures fault { IfErr result (IsFault mission.now plan.now.extensions extension.now) }
{
    let horizon = &mission.horizons.as_slice()[plan.extensions.len()];
    let goals = horizon.goals.as_slice();
    let entries = extension.goals.as_slice();
    for (i, goal) in goals.iter().enumerate() {
        if !is_met(index, goal, entries, i) {
            return Err(Fault::Goal { number: i as u32 });
        }
    }
    if entries.len() > goals.len() {
        return Err(Fault::Goal {
            number: goals.len() as u32,
        });
    }
    Ok(())
}
