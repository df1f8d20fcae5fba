ghost use Rattle.std.specs.Prelude.{◌≡◌, ◌<◌, ◌^◌, ◌++◌, length};
ghost use Rattle.hs_base.specs.Points.{timeline_of};
ghost use Rattle.plan_check.specs.Lines.{last_value, size_of, IsFirstEmpty};

use hs_base::{Kind, SvId, ValId};
use plan_index::PlanIndex;

/// How many of these tokens are of the variable.
pub(crate) fn count_of(tokens: &[Kind], sv: SvId) -> usize
    ensures { result ≡ length (timeline_of tokens.now sv.0) }
{
    tokens.iter().filter(|kind| kind.sv.0 == sv.0).count()
}

/// How many tokens of the variable a plan has with new ones behind it.
pub(crate) fn count_with(index: &PlanIndex, new: &[Kind], sv: SvId) -> u128
    ensures { result ≡ size_of (index.now.tokens ++ new.now) sv.0 }
{
    index.timeline(sv).len() as u128 + count_of(new, sv) as u128
}

/// The value of the last of these tokens that is of the variable.
fn last_of(tokens: &[Kind], sv: SvId) -> Option<ValId>
    ensures { result ≡ last_value (timeline_of tokens.now sv.0) }
{
    let mut last = None;
    for kind in tokens {
        if kind.sv.0 == sv.0 {
            last = Some(kind.value);
        }
    }
    last
}

/// The value of the variable's last token in a plan with new ones behind it.
pub(crate) fn last_with(index: &PlanIndex, new: &[Kind], sv: SvId) -> Option<ValId>
    ensures { result ≡ last_value (timeline_of (index.now.tokens ++ new.now) sv.0) }
{
    if let Some(value) = last_of(new, sv) {
        return Some(value);
    }
    match index.timeline(sv).last() {
        Some(token) => Some(token.value),
        None => None,
    }
}

/// The first of so many variables that has no token in a plan with new ones behind it.
pub(crate) fn first_empty(index: &PlanIndex, new: &[Kind], vars: usize) -> Option<usize>
    requires { vars < 2 ^ 32 }
    ensures { IsFirstEmpty (index.now.tokens ++ new.now) vars result }
{
    for v in 0..vars {
        if count_with(index, new, SvId(v as u32)) == 0 {
            return Some(v);
        }
    }
    None
}
