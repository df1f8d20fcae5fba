ghost use Rattle.std.specs.Prelude.{◌≡◌, ◌<◌, ◌↔◌, length, slice_get, Some, IsTrue, OnOk, IfErr};
ghost use Rattle.hs_base.specs.declared.plan.Support.{Support};
ghost use Rattle.hs_base.specs.Points.{tokens_of};
ghost use Rattle.hs_base.specs.Checked.{joined, supports_of, Checked, IsNeedBefore, KeepsSupports, supports, KeepsBefore};
ghost use Rattle.hs_base.specs.Faults.{IsFault};
ghost use Rattle.plan_check.specs.Claimed.{AreClaims};
ghost use Rattle.plan_check.specs.Serving.{IsServingIn, IsBehindLast};

use crate::claims::Claims;
use hs_base::{Extension, Fault, Mission, Plan, Support};
use plan_index::PlanIndex;

/// Whether a support names a token, a need of it, and a token of one of that need's choices.
fn is_serving(mission: &Mission, index: &PlanIndex, support: Support) -> bool
    ensures { IsTrue result ↔ IsServingIn mission.now index.now.tokens support }
{
    let Some(of) = index.token(support.token) else {
        return false;
    };
    let Some(need) = mission.need(of, support.need) else {
        return false;
    };
    match index.token(support.by) {
        Some(by) => need.choice(by).is_some(),
        None => false,
    }
}

/// Whether what a support is for comes before what another one is for.
fn is_before(one: &Support, other: &Support) -> bool
    ensures { IsTrue result ↔ IsNeedBefore one.now.token one.now.need other.now.token other.now.need }
{
    if one.token.sv.0 != other.token.sv.0 {
        return one.token.sv.0 < other.token.sv.0;
    }
    if one.token.place != other.token.place {
        return one.token.place < other.token.place;
    }
    one.need < other.need
}

/// Whether a support comes behind the one before it.
fn is_rising(supports: &[Support], i: usize) -> bool
    requires { i < length supports.now }
    ensures { IsTrue result ↔ IsBehindLast supports.now i }
{
    if i == 0 {
        return true;
    }
    is_before(&supports[i - 1], &supports[i])
}

/// Whether a support of a list is right behind the one before it.
fn is_right(mission: &Mission, index: &PlanIndex, supports: &[Support], i: usize) -> bool
    requires { i < length supports.now }
    ensures { IsTrue result ↔ (IsBehindLast supports.now i × ((s : Support) → slice_get supports.now i ≡ Some s → IsServingIn mission.now index.now.tokens s)) }
{
    is_rising(supports, i) && is_serving(mission, index, supports[i])
}

/// Whether the extension's supports are right. What they are for is added to the claims.
pub(crate) fn check_supports(
    mission: &Mission,
    plan: &Plan,
    index: &PlanIndex,
    claims: &mut Claims,
    extension: &Extension,
) -> Result<(), Fault>
    requires checked { Checked mission.now plan.now.extensions }
    requires before { KeepsBefore mission.now plan.now.extensions extension.now supports }
    requires tokens { index.now.tokens ≡ tokens_of (joined plan.now.extensions extension.now) }
    requires claims { AreClaims (supports_of plan.now.extensions) claims.old.set }
    ensures claims { OnOk result (AreClaims (supports_of (joined plan.now.extensions extension.now)) claims.new.set) }
    ensures kept { OnOk result (KeepsSupports mission.now plan.now.extensions extension.now) }
    ensures fault { IfErr result (IsFault mission.now plan.now.extensions extension.now) }
{
    let supports = extension.supports.as_slice();
    for (i, support) in supports.iter().enumerate() {
        if !is_right(mission, index, supports, i) {
            return Err(Fault::WrongSupport { number: i as u32 });
        }
        if !claims.insert(support)? {
            return Err(Fault::WrongSupport { number: i as u32 });
        }
    }
    Ok(())
}
