ghost use Rattle.std.specs.Prelude.{◌≡◌, ◌≢◌, ◌++◌, [], IfOk, OnOk};
ghost use Rattle.hs_base.specs.Missions.{IsMission};
ghost use Rattle.plan_search.specs.declared.unplanned.Unplanned.TheVariants.{Memory as NoMemoryLeft};
ghost use Rattle.commands.specs.Plans.{IsNetText, IsPlanText, Nets, Plans};
ghost use Rattle.commands.specs.Searches.{Searches};
ghost use Rattle.commands.specs.Untold.{IsToldWhy, line_of, status_of};

use crate::input::whole;
use crate::outcome::refused;
use crate::{Outcome, Status};
use answer_lines::{push_budget, push_no_plan};
use edge_filter::reform;
use hs_base::{Memory, Mission};
use hs_texts::Text;
use plan_search::{Unplanned, first_plan};
use std::alloc::Global;

/// Adds the line that no plan was found, and answers the status.
pub(crate) fn push_unplanned(text: &mut Text, why: &Unplanned) -> Result<Status, Memory>
    ensures line { OnOk result (text.new ≡ text.old ++ line_of why.now) }
    ensures status { IfOk result (λ s. s ≡ status_of why.now) }
    ensures some { OnOk result (why.now ≢ NoMemoryLeft) }
{
    match why {
        Unplanned::NoPlan => {
            push_no_plan(text, 0)?;
            Ok(Status::NoPlan)
        }
        Unplanned::Budget(path) => {
            push_budget(text, 0, path.as_slice())?;
            Ok(Status::Budget)
        }
        Unplanned::Memory => Err(Memory),
    }
}

/// The line that no plan was found.
fn without_plan(alloc: Global, why: &Unplanned) -> Result<Outcome, Memory>
    ensures { IfOk result (λ o. IsToldWhy why.now [] o.status o.text) }
{
    let mut text = Text::new(alloc);
    let status = push_unplanned(&mut text, why)?;
    Ok(Outcome { status, text })
}

/// Writes the first plan of a mission.
fn planned(alloc: Global, mission: &Mission, budget: u64) -> Result<Outcome, Memory>
    requires { IsMission mission.now }
    ensures { IfOk result (λ o. Searches mission.now budget [] (IsPlanText mission.now) o.status o.text) }
{
    match first_plan(alloc, mission, budget) {
        Ok(checked) => Ok(Outcome {
            status: Status::Done,
            text: plan_text::write(alloc, mission, checked.plan())?,
        }),
        Err(why) => without_plan(alloc, &why),
    }
}

/// Writes the network by which the first plan of a mission is dispatched.
fn reformed(alloc: Global, mission: &Mission, budget: u64) -> Result<Outcome, Memory>
    requires { IsMission mission.now }
    ensures { IfOk result (λ o. Searches mission.now budget [] (IsNetText mission.now) o.status o.text) }
{
    match first_plan(alloc, mission, budget) {
        Ok(checked) => {
            let (checked, _, net) = reform(alloc, checked)?.into_parts();
            Ok(Outcome {
                status: Status::Done,
                text: plan_text::write_net(alloc, mission, checked.plan(), &net)?,
            })
        }
        Err(why) => without_plan(alloc, &why),
    }
}

/// Searches the plan of a mission's first horizon, and writes it: the plan, or that there is none,
/// or where the budget of nodes ended.
pub fn plan(alloc: Global, text: &[u8], budget: u64) -> Result<Outcome, Memory>
    ensures { IfOk result (λ o. Plans budget text.now o.status o.text) }
{
    match whole(alloc, text) {
        Ok(mission) => planned(alloc, &mission, budget),
        Err(refusal) => refused(alloc, &refusal),
    }
}

/// Searches the plan of a mission's first horizon, and writes the network by which it is
/// dispatched: the rigid groups, and the edges between their leaders that no edge dominates.
pub fn net(alloc: Global, text: &[u8], budget: u64) -> Result<Outcome, Memory>
    ensures { IfOk result (λ o. Nets budget text.now o.status o.text) }
{
    match whole(alloc, text) {
        Ok(mission) => reformed(alloc, &mission, budget),
        Err(refusal) => refused(alloc, &refusal),
    }
}
