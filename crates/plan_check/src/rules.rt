ghost use Rattle.std.specs.Prelude.{◌≡◌, OnOk, IfErr};
ghost use Rattle.hs_base.specs.Checked.{joined, supports_of, KeepsRules, goals, supports, KeepsBefore, Checked};
ghost use Rattle.hs_base.specs.Faults.{IsFault};
ghost use Rattle.plan_index.specs.Contents.{contents_of};
ghost use Rattle.plan_check.specs.Claimed.{AreClaims};

use crate::claims::Claims;
use crate::fixed::check_fixed;
use crate::goals::check_goals;
use crate::limits::{check_base, check_limits};
use crate::order::check_order;
use crate::services::check_services;
use hs_base::{Extension, Fault, Mission, Plan};
use plan_index::PlanIndex;

/// The rules before those on supports, by the index of the plan before the extension.
fn check_form(
    mission: &Mission,
    plan: &Plan,
    index: &PlanIndex,
    extension: &Extension,
) -> Result<(), Fault>
    requires checked { Checked mission.now plan.now.extensions }
    requires index { index.now ≡ contents_of plan.now.extensions }
    ensures kept { OnOk result (KeepsBefore mission.now plan.now.extensions extension.now supports) }
    ensures fault { IfErr result (IsFault mission.now plan.now.extensions extension.now) }
{
    check_base(mission, plan, extension)?;
    check_limits(mission, plan, index, extension)?;
    check_order(mission, plan, index, extension)?;
    check_fixed(mission, plan, index, extension)?;
    Ok(())
}

/// The rules from those on supports on, by the index of the plan with the extension.
fn check_meaning(
    mission: &Mission,
    plan: &Plan,
    index: &PlanIndex,
    claims: &mut Claims,
    extension: &Extension,
) -> Result<(), Fault>
    requires checked { Checked mission.now plan.now.extensions }
    requires before { KeepsBefore mission.now plan.now.extensions extension.now supports }
    requires index { index.now ≡ contents_of (joined plan.now.extensions extension.now) }
    requires claims { AreClaims (supports_of plan.now.extensions) claims.old.set }
    ensures claims { OnOk result (AreClaims (supports_of (joined plan.now.extensions extension.now)) claims.new.set) }
    ensures kept { OnOk result (KeepsRules mission.now plan.now.extensions extension.now) }
    ensures fault { IfErr result (IsFault mission.now plan.now.extensions extension.now) }
{
    check_services(mission, plan, index, claims, extension)?;
    check_goals(mission, plan, index, extension)?;
    Ok(())
}

/// The rules of an extension, in the order in which their faults are named. The index and the
/// claims take the extension in.
pub(crate) fn check_rules(
    mission: &Mission,
    plan: &Plan,
    index: &mut PlanIndex,
    claims: &mut Claims,
    extension: &Extension,
) -> Result<(), Fault>
    requires checked { Checked mission.now plan.now.extensions }
    requires index { index.old ≡ contents_of plan.now.extensions }
    requires claims { AreClaims (supports_of plan.now.extensions) claims.old.set }
    ensures index { OnOk result (index.new ≡ contents_of (joined plan.now.extensions extension.now)) }
    ensures claims { OnOk result (AreClaims (supports_of (joined plan.now.extensions extension.now)) claims.new.set) }
    ensures kept { OnOk result (KeepsRules mission.now plan.now.extensions extension.now) }
    ensures fault { IfErr result (IsFault mission.now plan.now.extensions extension.now) }
{
    check_form(mission, plan, index, extension)?;
    index.extend(extension)?;
    check_meaning(mission, plan, index, claims, extension)
}
