ghost use Rattle.std.specs.Prelude.{◌≡◌, ◌<◌, ◌^◌, List, length, OnOk, IfErr};
ghost use Rattle.hs_base.specs.declared.plan.Extension.{Extension};
ghost use Rattle.hs_base.specs.Checked.{joined, free_points, KeepsBase, KeepsLimits, limits, KeepsBefore};
ghost use Rattle.hs_base.specs.Faults.{shown, IsFault};
ghost use Rattle.plan_index.specs.Contents.{contents_of};

use hs_base::{Extension, FREE_POINTS, Fault, Mission, NEW_TOKENS, Plan};
use plan_index::PlanIndex;

/// Whether the extension is for the plan's next horizon.
pub(crate) fn check_base(mission: &Mission, plan: &Plan, extension: &Extension) -> Result<(), Fault>
    requires { length plan.now.extensions < 2 ^ 32 }
    ensures kept { OnOk result (KeepsBase mission.now plan.now.extensions extension.now) }
    ensures fault { IfErr result (IsFault mission.now plan.now.extensions extension.now) }
{
    let current = plan.extensions.len();
    if extension.base as usize != current || current >= mission.horizons.len() {
        return Err(Fault::Base {
            given: extension.base,
            current: current as u32,
        });
    }
    Ok(())
}

/// The points of the plan with the extension whose times no extension fixes.
fn count_free(index: &PlanIndex, extension: &Extension) -> u128
    ensures { (es : List Extension) → index.now ≡ contents_of es → result ≡ free_points (joined es extension.now) }
{
    let all = index.points() as u128 + 1 + extension.tokens.len() as u128;
    let fixed = index.fixed().len() as u128 + extension.fixed.len() as u128;
    all.saturating_sub(fixed)
}

/// A number as a fault shows it.
fn show(n: u128) -> u32
    ensures { result ≡ shown n }
{
    n.min(u32::MAX as u128) as u32
}

/// Whether the extension has few enough tokens, and the plan with it few enough free points.
pub(crate) fn check_limits(
    mission: &Mission,
    plan: &Plan,
    index: &PlanIndex,
    extension: &Extension,
) -> Result<(), Fault>
    requires index { index.now ≡ contents_of plan.now.extensions }
    requires before { KeepsBefore mission.now plan.now.extensions extension.now limits }
    ensures kept { OnOk result (KeepsLimits plan.now.extensions extension.now) }
    ensures fault { IfErr result (IsFault mission.now plan.now.extensions extension.now) }
{
    let tokens = extension.tokens.len();
    let free = count_free(index, extension);
    if tokens > NEW_TOKENS || free > FREE_POINTS as u128 {
        return Err(Fault::Limit {
            points: show(free),
            tokens: show(tokens as u128),
        });
    }
    Ok(())
}
