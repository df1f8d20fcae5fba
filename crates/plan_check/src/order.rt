ghost use Rattle.std.specs.Prelude.{◌≡◌, ◌<◌, ◌^◌, ◌↔◌, ◌++◌, length, IsTrue, OnOk, IfErr, List};
ghost use Rattle.hs_base.specs.declared.mission.Kind.{Kind as TokenKind};
ghost use Rattle.hs_base.specs.Timelines.{MayFollow};
ghost use Rattle.hs_base.specs.Checked.{Checked, MayStandBehind, KeepsOrder, order, KeepsBefore};
ghost use Rattle.hs_base.specs.Faults.{IsFault};
ghost use Rattle.plan_index.specs.Contents.{contents_of};
ghost use Rattle.plan_check.specs.Lines.{last_value, size_of};
ghost use Rattle.plan_check.specs.Standing.{MayStand, NoneMissing, IsStandFault};

use crate::tokens::{count_with, first_empty, last_with};
use hs_base::{Extension, Fault, Kind, Mission, Plan, SvId, ValId, Var};
use plan_index::PlanIndex;

/// Whether a value may follow another one.
fn may_follow(var: &Var, before: ValId, value: ValId) -> bool
    ensures { IsTrue result ↔ MayFollow var.now before.0 value.0 }
{
    match var.values.as_slice().get(before.0 as usize) {
        Some(found) => found.next.as_slice().iter().any(|next| next.0 == value.0),
        None => false,
    }
}

/// Whether a value may stand behind the tokens of its timeline, by the value of the last one.
fn may_stand_behind(var: &Var, last: Option<ValId>, value: ValId) -> bool
    ensures { (row : List TokenKind) → last ≡ last_value row → IsTrue result ↔ MayStandBehind var.now row value.0 }
{
    match last {
        Some(before) => may_follow(var, before, value),
        None => value.0 == var.begin.0,
    }
}

/// Whether a token may stand behind those of the plan and the new ones before it, of which the
/// last is of variable `lowest`.
fn may_stand(mission: &Mission, index: &PlanIndex, new: &[Kind], lowest: u32, kind: Kind) -> bool
    ensures { IsTrue result ↔ MayStand mission.now (index.now.tokens ++ new.now) lowest kind }
{
    if kind.sv.0 < lowest {
        return false;
    }
    match mission.vars.as_slice().get(kind.sv.0 as usize) {
        Some(var) => may_stand_behind(var, last_with(index, new, kind.sv), kind.value),
        None => false,
    }
}

/// Whether no first token of a smaller variable is missing, and the token may stand.
fn check_token(
    mission: &Mission,
    index: &PlanIndex,
    new: &[Kind],
    lowest: u32,
    kind: Kind,
) -> Result<(), Fault>
    requires vars { length mission.now.vars < 2 ^ 32 }
    requires few { size_of (index.now.tokens ++ new.now) kind.sv.0 < 2 ^ 32 }
    ensures missing { OnOk result (NoneMissing (index.now.tokens ++ new.now) (length mission.now.vars) kind.sv.0) }
    ensures stands { OnOk result (MayStand mission.now (index.now.tokens ++ new.now) lowest kind) }
    ensures fault { IfErr result (IsStandFault mission.now (index.now.tokens ++ new.now) lowest kind) }
{
    if let Some(v) = first_empty(index, new, mission.vars.len()) {
        if v < kind.sv.0 as usize {
            return Err(Fault::Order {
                sv: SvId(v as u32),
                place: 0,
            });
        }
    }
    if !may_stand(mission, index, new, lowest, kind) {
        return Err(Fault::Order {
            sv: kind.sv,
            place: count_with(index, new, kind.sv) as u32,
        });
    }
    Ok(())
}

/// Whether the extension's tokens are in order behind the plan's.
pub(crate) fn check_order(
    mission: &Mission,
    plan: &Plan,
    index: &PlanIndex,
    extension: &Extension,
) -> Result<(), Fault>
    requires checked { Checked mission.now plan.now.extensions }
    requires index { index.now ≡ contents_of plan.now.extensions }
    requires before { KeepsBefore mission.now plan.now.extensions extension.now order }
    ensures kept { OnOk result (KeepsOrder mission.now plan.now.extensions extension.now) }
    ensures fault { IfErr result (IsFault mission.now plan.now.extensions extension.now) }
{
    let tokens = extension.tokens.as_slice();
    let mut lowest = 0;
    for (i, kind) in tokens.iter().enumerate() {
        check_token(mission, index, &tokens[..i], lowest, *kind)?;
        lowest = kind.sv.0;
    }
    match first_empty(index, tokens, mission.vars.len()) {
        Some(v) => Err(Fault::Order {
            sv: SvId(v as u32),
            place: 0,
        }),
        None => Ok(()),
    }
}
