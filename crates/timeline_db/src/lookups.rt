ghost use Rattle.std.specs.Prelude.{◌≡◌, ◌&&◌, ◌≤◌, suc, length, filter, slice_get, option_copied};
ghost use Rattle.std.specs.List.{list_any};
ghost use Rattle.hs_base.specs.Checked.{supports_of};
ghost use Rattle.hs_base.specs.Needs.{same_kind, needs_of};
ghost use Rattle.hs_base.specs.Bounds.{goals_of};
ghost use Rattle.timeline_db.specs.Claims.{is_claim};

use hs_base::{Extension, Goal, Kind, Mission, Need, Support, TokenRef};

/// The goal of that number of the horizon behind so many.
pub(crate) fn goal_at(mission: &Mission, horizons: usize, goal: u32) -> Option<&Goal>
    ensures { option_copied result ≡ slice_get (goals_of mission.now (suc horizons)) goal }
{
    let horizon = mission.horizons.as_slice().get(horizons)?;
    horizon.goals.as_slice().get(goal as usize)
}

/// How many needs tokens of the kind have.
pub(crate) fn count_needs(mission: &Mission, kind: Kind) -> u32
    requires { length mission.now.needs ≤ 256 }
    ensures { result ≡ length (needs_of mission.now kind) }
{
    count_among(mission.needs.as_slice(), kind)
}

/// How many of these needs are of the kind.
fn count_among(needs: &[Need], kind: Kind) -> u32
    requires { length needs.now ≤ 256 }
    ensures { result ≡ length (filter (λ n. same_kind n.of kind) needs.now) }
{
    let mut count = 0;
    for need in needs {
        if need.of.is(kind) {
            count += 1;
        }
    }
    count
}

/// Whether one of the supports is for the need of the token.
fn is_claimed_in(supports: &[Support], token: TokenRef, need: u32) -> bool
    ensures { result ≡ list_any (is_claim token need) supports.now }
{
    supports.iter().any(|support| support.token.sv.0 == token.sv.0
        && support.token.place == token.place
        && support.need == need)
}

/// Whether a support of the plan is for the need of the token.
pub(crate) fn is_claimed(extensions: &[Extension], token: TokenRef, need: u32) -> bool
    ensures { result ≡ list_any (is_claim token need) (supports_of extensions.now) }
{
    extensions.iter().any(|extension| is_claimed_in(extension.supports.as_slice(), token, need))
}
