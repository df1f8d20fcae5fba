ghost use Rattle.std.specs.Prelude.{◌≡◌, ◌-◌, ◌≤◌, [], ◌∷◌, ◌++◌, cond, pos, negsuc, neg_ℤ, ◌≤ℤ◌, length, All, slice_get, OnOk};
ghost use Rattle.hs_base.specs.Schedule.{bound};
ghost use Rattle.hs_base.specs.Bounds.{on_some, exactly, point_bounds, fixed_bounds};
ghost use Rattle.hs_base.specs.Missions.{IsMission};
ghost use Rattle.token_net.specs.Items.{first_of, last_of, length_item, length_items, start_items, last_item, last_items, support_item, support_items, goal_item, goal_items, since_item, since_items};

use crate::apart::{Ends, add_apart, add_exactly, add_relation};
use hs_base::{
    Bound, Goal, LAST, List, Memory, Mission, PointId, Range, Support, SvId, Time, TokenRef,
};
use plan_index::PlanIndex;

const WHOLE: Range = Range { low: 0, high: LAST };

/// Adds the bound by which `x` stands before `y`.
fn add_before(made: &mut List<Bound>, x: PointId, y: PointId) -> Result<(), Memory>
    ensures { OnOk result (made.new ≡ made.old ++ bound y.0 x.0 (negsuc 0) ∷ []) }
{
    made.push(Bound {
        from: y,
        to: x,
        most: -1,
    })
}

/// The horizon point stands at the horizon.
pub(crate) fn add_horizon(
    made: &mut List<Bound>,
    mission: &Mission,
    number: usize,
    mark: PointId,
) -> Result<(), Memory>
    requires { IsMission mission.now }
    ensures { OnOk result (made.new ≡ made.old ++ on_some (slice_get mission.now.horizons number) (λ h. exactly mark.0 h.tick)) }
{
    match mission.horizons.as_slice().get(number) {
        Some(horizon) => add_exactly(made, mark, horizon.tick),
        None => Ok(()),
    }
}

/// The points from `first` on stand within 0 to LAST.
#[tactic(auto, using(crate::proofs::ItemLemmas::flat_numbers))]
pub(crate) fn add_points(made: &mut List<Bound>, first: u32, points: u32) -> Result<(), Memory>
    requires { first ≤ points }
    ensures { OnOk result (made.new ≡ made.old ++ point_bounds first (points - first)) }
{
    for x in first..points {
        add_apart(made, PointId(x), PointId(0), WHOLE)?;
    }
    Ok(())
}

/// A new token lasts as long as its value may.
#[tactic(auto, using(base_laws::proofs::MissionLemmas::lasts_low))]
fn add_length(
    made: &mut List<Bound>,
    mission: &Mission,
    index: &PlanIndex,
    token: TokenRef,
) -> Result<(), Memory>
    requires { IsMission mission.now }
    ensures { OnOk result (made.new ≡ made.old ++ length_item mission.now index.now token) }
{
    let Some(kind) = index.token(token) else {
        return Ok(());
    };
    match mission.value(kind) {
        Some(value) => add_apart(made, index.end(token), index.start(token), value.lasts),
        None => Ok(()),
    }
}

/// New tokens last as long as their values may.
#[tactic(auto, using(crate::proofs::ItemLemmas::flat_more))]
pub(crate) fn add_lengths(
    made: &mut List<Bound>,
    mission: &Mission,
    index: &PlanIndex,
    new: &[TokenRef],
) -> Result<(), Memory>
    requires { IsMission mission.now }
    ensures { OnOk result (made.new ≡ made.old ++ length_items mission.now index.now new.now) }
{
    for token in new {
        add_length(made, mission, index, *token)?;
    }
    Ok(())
}

/// New tokens start before the horizon.
#[tactic(auto, using(crate::proofs::ItemLemmas::flat_more))]
pub(crate) fn add_starts(
    made: &mut List<Bound>,
    index: &PlanIndex,
    mark: PointId,
    new: &[TokenRef],
) -> Result<(), Memory>
    ensures { OnOk result (made.new ≡ made.old ++ start_items index.now mark.0 new.now) }
{
    for token in new {
        add_before(made, index.start(*token), mark)?;
    }
    Ok(())
}

/// The timeline of a variable ends after the horizon.
fn add_last(
    made: &mut List<Bound>,
    index: &PlanIndex,
    sv: SvId,
    mark: PointId,
) -> Result<(), Memory>
    ensures { OnOk result (made.new ≡ made.old ++ last_item index.now mark.0 sv.0) }
{
    let timeline = index.timeline(sv);
    if timeline.is_empty() {
        return Ok(());
    }
    add_before(made, mark, timeline[timeline.len() - 1].end)
}

/// Each timeline ends after the horizon.
#[tactic(auto, using(crate::proofs::ItemLemmas::flat_numbers))]
pub(crate) fn add_lasts(
    made: &mut List<Bound>,
    index: &PlanIndex,
    vars: u32,
    mark: PointId,
) -> Result<(), Memory>
    ensures { OnOk result (made.new ≡ made.old ++ last_items index.now mark.0 vars) }
{
    for v in 0..vars {
        add_last(made, index, SvId(v), mark)?;
    }
    Ok(())
}

/// The points that start and end a token.
fn ends_of(index: &PlanIndex, token: TokenRef) -> Ends
    ensures start { result.start.0 ≡ first_of index.now token }
    ensures stop { result.stop.0 ≡ last_of index.now token }
{
    Ends {
        start: index.start(token),
        stop: index.end(token),
    }
}

/// A support keeps the relation of the choice that its token is for.
#[tactic(auto, using(base_laws::proofs::MissionLemmas::choice_ranges))]
fn add_support(
    made: &mut List<Bound>,
    mission: &Mission,
    index: &PlanIndex,
    support: Support,
) -> Result<(), Memory>
    requires { IsMission mission.now }
    ensures { OnOk result (made.new ≡ made.old ++ support_item mission.now index.now support) }
{
    let Some(kind) = index.token(support.token) else {
        return Ok(());
    };
    let Some(need) = mission.need(kind, support.need) else {
        return Ok(());
    };
    let Some(by) = index.token(support.by) else {
        return Ok(());
    };
    match need.choice(by) {
        Some(choice) => add_relation(
            made,
            choice.relation,
            ends_of(index, support.token),
            ends_of(index, support.by),
        ),
        None => Ok(()),
    }
}

/// Supports keep the relations of the choices that their tokens are for.
#[tactic(auto, using(crate::proofs::ItemLemmas::flat_more))]
pub(crate) fn add_supports(
    made: &mut List<Bound>,
    mission: &Mission,
    index: &PlanIndex,
    supports: &[Support],
) -> Result<(), Memory>
    requires { IsMission mission.now }
    ensures { OnOk result (made.new ≡ made.old ++ support_items mission.now index.now supports.now) }
{
    for support in supports {
        add_support(made, mission, index, *support)?;
    }
    Ok(())
}

/// A goal's token starts and stops in the goal's ranges.
fn add_goal(
    made: &mut List<Bound>,
    index: &PlanIndex,
    goal: &Goal,
    token: TokenRef,
) -> Result<(), Memory>
    requires start { pos 0 ≤ℤ goal.now.start.low }
    requires stop { pos 0 ≤ℤ goal.now.stop.low }
    ensures { OnOk result (made.new ≡ made.old ++ goal_item index.now goal.now token) }
{
    add_apart(made, index.start(token), PointId(0), goal.start)?;
    add_apart(made, index.end(token), PointId(0), goal.stop)
}

/// The goals' tokens start and stop in the goals' ranges.
#[tactic(auto, using(crate::proofs::ItemLemmas::goals_more, crate::proofs::ItemLemmas::goals_all))]
pub(crate) fn add_goals(
    made: &mut List<Bound>,
    index: &PlanIndex,
    goals: &[Goal],
    entries: &[TokenRef],
) -> Result<(), Memory>
    requires { All (λ g. (pos 0 ≤ℤ g.start.low) × (pos 0 ≤ℤ g.stop.low)) goals.now }
    ensures { OnOk result (made.new ≡ made.old ++ goal_items index.now goals.now entries.now) }
{
    let count = goals.len().min(entries.len());
    for i in 0..count {
        add_goal(made, index, &goals[i], entries[i])?;
    }
    Ok(())
}

/// The tokens of a horizon's goals start and stop in the goals' ranges.
pub(crate) fn add_goals_of(
    made: &mut List<Bound>,
    mission: &Mission,
    index: &PlanIndex,
    number: usize,
    entries: &[TokenRef],
) -> Result<(), Memory>
    requires { IsMission mission.now }
    ensures { OnOk result (made.new ≡ made.old ++ goal_items index.now (on_some (slice_get mission.now.horizons number) (λ h. h.goals)) entries.now) }
{
    match mission.horizons.as_slice().get(number) {
        Some(horizon) => add_goals(made, index, horizon.goals.as_slice(), entries),
        None => Ok(()),
    }
}

/// Fixed points have their times.
#[tactic(auto, using(crate::proofs::ItemLemmas::flat_more))]
pub(crate) fn add_fixed(made: &mut List<Bound>, times: &[Time]) -> Result<(), Memory>
    requires { All (λ t. pos 0 ≤ℤ t.at) times.now }
    ensures { OnOk result (made.new ≡ made.old ++ fixed_bounds times.now) }
{
    for time in times {
        add_exactly(made, time.point, time.at)?;
    }
    Ok(())
}

/// A point that is not fixed stands at that time or later.
fn add_since_at(
    made: &mut List<Bound>,
    index: &PlanIndex,
    point: PointId,
    since: i64,
) -> Result<(), Memory>
    requires { pos 0 ≤ℤ since }
    ensures { OnOk result (made.new ≡ made.old ++ since_item index.now since point.0) }
{
    if index.is_fixed(point) {
        return Ok(());
    }
    made.push(Bound {
        from: point,
        to: PointId(0),
        most: -since,
    })
}

/// The points but Z that are not fixed stand at that time or later.
#[tactic(auto, using(crate::proofs::ItemLemmas::flat_numbers))]
pub(crate) fn add_since(
    made: &mut List<Bound>,
    index: &PlanIndex,
    points: u32,
    since: i64,
) -> Result<(), Memory>
    requires all { points ≡ length index.now.points }
    requires some { 1 ≤ points }
    requires time { pos 0 ≤ℤ since }
    ensures { OnOk result (made.new ≡ made.old ++ since_items index.now since) }
{
    for x in 1..points {
        add_since_at(made, index, PointId(x), since)?;
    }
    Ok(())
}
