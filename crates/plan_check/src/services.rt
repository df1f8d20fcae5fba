ghost use Rattle.std.specs.Prelude.{◌≡◌, OnOk, IfErr};
ghost use Rattle.hs_base.specs.Points.{tokens_of};
ghost use Rattle.hs_base.specs.Checked.{joined, supports_of, Checked, KeepsSupports, KeepsNeeds, supports, KeepsBefore};
ghost use Rattle.hs_base.specs.Faults.{IsFault};
ghost use Rattle.plan_check.specs.Claimed.{AreClaims};

use crate::claims::Claims;
use crate::needs::check_needs;
use crate::supports::check_supports;
use hs_base::{Extension, Fault, Mission, Plan};
use plan_index::PlanIndex;

/// Whether the extension's supports are right, and every need is served or may wait. What the
/// supports are for is added to the claims.
pub(crate) fn check_services(
    mission: &Mission,
    plan: &Plan,
    index: &PlanIndex,
    claims: &mut Claims,
    extension: &Extension,
) -> Result<(), Fault>
    requires checked { Checked mission.now plan.now.extensions }
    requires before { KeepsBefore mission.now plan.now.extensions extension.now supports }
    requires tokens { index.now.tokens ≡ tokens_of (joined plan.now.extensions extension.now) }
    requires claims { AreClaims (supports_of plan.now.extensions) claims.old.set }
    ensures claims { OnOk result (AreClaims (supports_of (joined plan.now.extensions extension.now)) claims.new.set) }
    ensures supports { OnOk result (KeepsSupports mission.now plan.now.extensions extension.now) }
    ensures needs { OnOk result (KeepsNeeds mission.now (joined plan.now.extensions extension.now)) }
    ensures fault { IfErr result (IsFault mission.now plan.now.extensions extension.now) }
{
    check_supports(mission, plan, index, claims, extension)?;
    check_needs(mission, claims, index, extension.tokens.as_slice())?;
    Ok(())
}
