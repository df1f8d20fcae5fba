ghost use Rattle.std.specs.Prelude.{◌≡◌, ◌++◌, ◌^◌, ◌<◌, ◌≤◌, length, IfOk, OnOk};
ghost use Rattle.hs_base.specs.declared.limits.TheConstants.{TEXT_BYTES};
ghost use Rattle.hs_base.specs.Points.{count};
ghost use Rattle.hs_texts.specs.PlanText.{extension_in, plan_text};
ghost use Rattle.hs_texts.specs.Written.{point_text as text_of_point};
ghost use Rattle.text_laws.specs.WritablePlans.{IsWritablePlan};
ghost use Rattle.hs_texts.specs.PlanSpelling.{PlanSpells};

use crate::body::push_body;
use crate::parts::{push_number, push_point};
use hs_base::{Extension, Memory, Mission, Plan, PointId};
use hs_texts::Text;
use plan_index::PlanIndex;
use std::alloc::Global;

fn push_extension(
    text: &mut Text,
    mission: &Mission,
    index: &PlanIndex,
    extension: &Extension,
) -> Result<(), Memory>
    ensures { OnOk result (text.new ≡ text.old ++ extension_in mission.now index.now.points extension.now) }
{
    text.push_bytes(b"extension ")?;
    push_number(text, u64::from(extension.base) + 1)?;
    text.push_bytes(b"\n")?;
    push_body(text, mission, index, extension)
}

/// The text of a plan. A name that the mission doesn't have is left out.
///
/// Where the plan's tokens, points and numbers are such that texts can name them, as those of a
/// checked plan are, [`crate::read`]
/// reads it back from its text, unless that is longer than [`hs_base::TEXT_BYTES`].
pub fn write(alloc: Global, mission: &Mission, plan: &Plan) -> Result<Text, Memory>
    requires { count plan.now.extensions < 2 ^ 32 }
    ensures text { IfOk result (λ text. text ≡ plan_text mission.now plan.now.extensions) }
    ensures spelled { IsWritablePlan mission.now plan.now.extensions
        → IfOk result (λ text. length text ≤ TEXT_BYTES → PlanSpells mission.now text 0 plan.now.extensions) }
{
    let mut text = Text::new(alloc);
    let mut index = PlanIndex::new(alloc)?;
    text.push_bytes(b"hsts plan 1\n")?;
    for extension in plan.extensions.as_slice() {
        push_extension(&mut text, mission, &index, extension)?;
        index.extend(extension)?;
    }
    text.push_bytes(b"end\n")?;
    Ok(text)
}

/// A point of a plan as texts spell it: `Z`, `H 1` or `camera 0`.
pub fn point_text(
    alloc: Global,
    mission: &Mission,
    plan: &Plan,
    point: PointId,
) -> Result<Text, Memory>
    requires { count plan.now.extensions < 2 ^ 32 }
    ensures { IfOk result (λ text. text ≡ text_of_point mission.now plan.now.extensions point.0) }
{
    let mut text = Text::new(alloc);
    let index = PlanIndex::of(alloc, plan.extensions.as_slice())?;
    push_point(&mut text, mission, &index, point)?;
    Ok(text)
}
