ghost use Rattle.std.specs.Prelude.{◌≡◌, ◌++◌, ◌^◌, ◌<◌, All, flat_map, IfOk, OnOk};
ghost use Rattle.hs_base.specs.Points.{count};
ghost use Rattle.hs_base.specs.Schedule.{IsBelow};
ghost use Rattle.journal_text.specs.Reasons.{why_line, why_text};

use hs_base::{Bound, Memory, Mission, Plan};
use hs_texts::Text;
use plan_index::PlanIndex;
use plan_text::push_bound;
use std::alloc::Global;

/// A line that tells a bound.
fn push_why(
    text: &mut Text,
    mission: &Mission,
    index: &PlanIndex,
    bound: &Bound,
) -> Result<(), Memory>
    ensures { OnOk result (text.new ≡ text.old ++ why_line mission.now index.now.points bound.now) }
{
    text.push_bytes(b"why ")?;
    push_bound(text, mission, index, bound)?;
    text.push_bytes(b"\n")
}

/// A line for each bound of a chain.
fn push_chain(
    text: &mut Text,
    mission: &Mission,
    index: &PlanIndex,
    chain: &[Bound],
) -> Result<(), Memory>
    ensures { OnOk result (text.new ≡ text.old ++ flat_map (why_line mission.now index.now.points) chain.now) }
{
    for bound in chain {
        push_why(text, mission, index, bound)?;
    }
    Ok(())
}

/// The lines that tell why a run failed: for each bound of a chain between points of the plan one,
/// as `why camera 1 to camera 0 most -3`, with its number in ticks.
pub fn write_why(
    alloc: Global,
    mission: &Mission,
    plan: &Plan,
    chain: &[Bound],
) -> Result<Text, Memory>
    requires few { count plan.now.extensions < 2 ^ 32 }
    requires points { All (IsBelow (count plan.now.extensions)) chain.now }
    ensures { IfOk result (λ text. text ≡ why_text mission.now plan.now.extensions chain.now) }
{
    let index = PlanIndex::of(alloc, plan.extensions.as_slice())?;
    let mut text = Text::new(alloc);
    push_chain(&mut text, mission, &index, chain)?;
    Ok(text)
}
