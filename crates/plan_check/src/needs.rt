ghost use Rattle.std.specs.Prelude.{◌≡◌, ℕ, ◌<◌, ◌^◌, ◌&&◌, ◌||◌, length, map, OnOk, IfErr};
ghost use Rattle.hs_base.specs.Needs.{needs_of, is_deferrable};
ghost use Rattle.plan_check.specs.Claimed.{is_claimed};
ghost use Rattle.plan_index.specs.Lines.{kind_in};
ghost use Rattle.plan_check.specs.Lines.{size_of};
ghost use Rattle.plan_check.specs.Open.{IsFirstOpen, IsFirstOpenIn, HasNoneOpen, IsOpenFault};

use crate::claims::Claims;
use crate::tokens::count_of;
use hs_base::{Fault, Kind, Mission, Need, SvId, TokenRef};
use plan_index::{PlacedToken, PlanIndex};

/// Whether a support is for the need, or it may wait.
fn is_settled(claims: &Claims, token: TokenRef, number: u32, need: &Need, last: bool) -> bool
    ensures { result ≡ (is_claimed claims.now.set token number || (last && is_deferrable need.now)) }
{
    claims.has(token, number) || (last && need.is_deferrable())
}

/// The first need of a token that is not served and may not wait.
fn open_need(
    mission: &Mission,
    claims: &Claims,
    token: TokenRef,
    kind: Kind,
    last: bool,
) -> Option<u32>
    requires { length mission.now.needs < 2 ^ 32 }
    ensures { IsFirstOpen (needs_of mission.now kind) claims.now.set token last result }
{
    let mut number = 0;
    for need in mission.needs.as_slice() {
        if !need.of.is(kind) {
            continue;
        }
        if !is_settled(claims, token, number, need, last) {
            return Some(number);
        }
        number += 1;
    }
    None
}

/// A need of a token of some timeline.
#[derive(Clone, Copy, Drop)]
pub(crate) struct OpenNeed {
    pub place: u32,
    pub need: u32,
}

/// The first such need of the tokens of a timeline from a place on.
fn open_in_row(
    mission: &Mission,
    claims: &Claims,
    sv: SvId,
    row: &[PlacedToken],
    first: usize,
) -> Option<OpenNeed>
    requires needs { length mission.now.needs < 2 ^ 32 }
    requires few { length row.now < 2 ^ 32 }
    ensures { IsFirstOpenIn mission.now claims.now.set sv (map (kind_in sv.0) row.now) first result }
{
    for place in first..row.len() {
        let token = TokenRef {
            sv,
            place: place as u32,
        };
        let kind = Kind {
            sv,
            value: row[place].value,
        };
        if let Some(need) = open_need(mission, claims, token, kind, place + 1 == row.len()) {
            return Some(OpenNeed {
                place: place as u32,
                need,
            });
        }
    }
    None
}

/// Whether the needs of the new tokens, and of the last one before them of each timeline, are
/// served or may wait.
pub(crate) fn check_needs(
    mission: &Mission,
    claims: &Claims,
    index: &PlanIndex,
    new: &[Kind],
) -> Result<(), Fault>
    requires needs { length mission.now.needs < 2 ^ 32 }
    requires vars { length mission.now.vars < 2 ^ 32 }
    requires few { (v : ℕ) → size_of index.now.tokens v < 2 ^ 32 }
    ensures none { OnOk result (HasNoneOpen mission.now claims.now.set index.now.tokens new.now) }
    ensures fault { IfErr result (IsOpenFault mission.now claims.now.set index.now.tokens new.now) }
{
    for v in 0..mission.vars.len() {
        let sv = SvId(v as u32);
        let row = index.timeline(sv);
        let first = row
            .len()
            .saturating_sub(count_of(new, sv))
            .saturating_sub(1);
        if let Some(open) = open_in_row(mission, claims, sv, row, first) {
            return Err(Fault::Unsupported {
                sv,
                place: open.place,
                need: open.need,
            });
        }
    }
    Ok(())
}
