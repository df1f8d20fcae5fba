ghost use Rattle.std.specs.Prelude.{◌≡◌, ℤ, ◌≤ℤ◌, ◌++◌, [], ◌∷◌, pos, neg_ℤ, cond, OnOk};
ghost use Rattle.hs_base.specs.Bounds.{apart, exactly, on_some, relation_bounds, together};
ghost use Rattle.hs_base.specs.Missions.{HasRanges, IsMission};
ghost use Rattle.hs_base.specs.Points.{value_of};
ghost use Rattle.hs_base.specs.Ranges.{InRange, IsRange, whole};
ghost use Rattle.hs_base.specs.Schedule.{bound};
ghost use Rattle.search_tree.specs.PartialBounds.{backing_bounds};
ghost use Rattle.timeline_db.specs.Kept.{from_since, goal_kept, kept_cell, lasting, lasting_within, narrow, until_last};

use hs_base::{Bound, Goal, LAST, Memory, Mission, PointId, Range, Relation};
use search_tree::{Backing, Cell, Held};

const TOGETHER: Range = Range { low: 0, high: 0 };

fn push(made: &mut Vec<Bound>, from: u32, to: u32, most: i64) -> Result<(), Memory>
    ensures { OnOk result (made.new.items ≡ made.old.items ++ bound from to most ∷ []) }
{
    made.push(Bound {
        from: PointId(from),
        to: PointId(to),
        most,
    })?;
    Ok(())
}

/// Adds the two bounds by which `x` stands in the range after `y`.
pub(crate) fn push_apart(made: &mut Vec<Bound>, x: u32, y: u32, range: Range) -> Result<(), Memory>
    requires { pos 0 ≤ℤ range.low }
    ensures { OnOk result (made.new.items ≡ made.old.items ++ apart x y range) }
{
    push(made, y, x, range.high)?;
    push(made, x, y, -range.low)
}

/// `x` and `y` are one.
pub(crate) fn push_together(made: &mut Vec<Bound>, x: u32, y: u32) -> Result<(), Memory>
    ensures { OnOk result (made.new.items ≡ made.old.items ++ together x y) }
{
    push_apart(made, x, y, TOGETHER)
}

/// `x` stands exactly at a time.
pub(crate) fn push_exactly(made: &mut Vec<Bound>, x: u32, at: i64) -> Result<(), Memory>
    requires { pos 0 ≤ℤ at }
    ensures { OnOk result (made.new.items ≡ made.old.items ++ exactly x at) }
{
    push_apart(made, x, 0, Range { low: at, high: at })
}

/// `x` stands at that time or later.
pub(crate) fn push_from(made: &mut Vec<Bound>, x: u32, at: i64) -> Result<(), Memory>
    requires { pos 0 ≤ℤ at }
    ensures { OnOk result (made.new.items ≡ made.old.items ++ bound x 0 (neg_ℤ at) ∷ []) }
{
    push(made, x, 0, -at)
}

/// `x` stands at that time or earlier.
pub(crate) fn push_until(made: &mut Vec<Bound>, x: u32, at: i64) -> Result<(), Memory>
    ensures { OnOk result (made.new.items ≡ made.old.items ++ bound 0 x at ∷ []) }
{
    push(made, 0, x, at)
}

/// `x` stands no earlier than `y`.
pub(crate) fn push_behind(made: &mut Vec<Bound>, x: u32, y: u32) -> Result<(), Memory>
    ensures { OnOk result (made.new.items ≡ made.old.items ++ bound x y (pos 0) ∷ []) }
{
    push(made, x, y, 0)
}

/// A token lasts as long as its value may. That it ends no later than LAST is bounded elsewhere.
pub(crate) fn push_lasts(made: &mut Vec<Bound>, held: Held, lasts: Range) -> Result<(), Memory>
    requires { pos 0 ≤ℤ lasts.low }
    ensures { OnOk result (made.new.items ≡ made.old.items ++ lasting held lasts) }
{
    push(made, held.stop, held.start, -lasts.low)?;
    if lasts.high < LAST {
        push(made, held.start, held.stop, lasts.high)?;
    }
    Ok(())
}

/// A goal's token starts and stops in the goal's ranges.
pub(crate) fn push_goal(made: &mut Vec<Bound>, goal: &Goal, held: Held) -> Result<(), Memory>
    requires start { pos 0 ≤ℤ goal.now.start.low }
    requires stop { pos 0 ≤ℤ goal.now.stop.low }
    ensures { OnOk result (made.new.items ≡ made.old.items ++ goal_kept goal.now held) }
{
    push_apart(made, held.start, 0, goal.start)?;
    push_apart(made, held.stop, 0, goal.stop)
}

/// A relation between the token that has the need and the one that serves it.
fn push_relation(made: &mut Vec<Bound>, relation: Relation, x: Held, y: Held) -> Result<(), Memory>
    requires { HasRanges relation }
    ensures { OnOk result (made.new.items ≡ made.old.items ++ relation_bounds relation x.start x.stop y.start y.stop) }
{
    match relation {
        Relation::Before(range) => push_apart(made, y.start, x.stop, range),
        Relation::After(range) => push_apart(made, x.start, y.stop, range),
        Relation::Meets => push_together(made, y.start, x.stop),
        Relation::MetBy => push_together(made, x.start, y.stop),
        Relation::Starts(range) => push_apart(made, y.start, x.start, range),
        Relation::Ends(range) => push_apart(made, y.stop, x.stop, range),
        Relation::Equals => {
            push_together(made, y.start, x.start)?;
            push_together(made, y.stop, x.stop)
        }
        Relation::Contains(start, stop) => {
            push_apart(made, y.start, x.start, start)?;
            push_apart(made, x.stop, y.stop, stop)
        }
        Relation::ContainedBy(start, stop) => {
            push_apart(made, x.start, y.start, start)?;
            push_apart(made, y.stop, x.stop, stop)
        }
    }
}

/// A support keeps the relation of the choice that its token is for.
#[tactic(auto, using(base_laws::proofs::MissionLemmas::choice_ranges))]
pub(crate) fn push_backing(
    made: &mut Vec<Bound>,
    mission: &Mission,
    backing: Backing,
) -> Result<(), Memory>
    requires { IsMission mission.now }
    ensures { OnOk result (made.new.items ≡ made.old.items ++ backing_bounds mission.now backing) }
{
    let Some(need) = mission.need(backing.token.kind, backing.need) else {
        return Ok(());
    };
    match need.choice(backing.by.kind) {
        Some(choice) => push_relation(made, choice.relation, backing.token, backing.by),
        None => Ok(()),
    }
}

/// Leaves out the bounds that say LAST or more: points that stand in 0 to LAST keep them.
pub(crate) fn drop_wide(made: &mut Vec<Bound>)
    ensures { made.new.items ≡ narrow made.old.items }
{
    made.retain(|b| b.most < LAST);
}

/// The tick of the next horizon, and the one before which no new token ends.
#[derive(Clone, Copy, Debug)]
pub(crate) struct Outlook {
    pub tick: i64,
    pub since: i64,
}

/// A new token is behind the point `before`, unless it is joined to it.
fn push_link(made: &mut Vec<Bound>, cell: Cell, before: u32) -> Result<(), Memory>
    ensures { OnOk result (made.new.items ≡ made.old.items ++ cond cell.joined [] (bound cell.held.start before (pos 0) ∷ [])) }
{
    if cell.joined {
        return Ok(());
    }
    push_behind(made, cell.held.start, before)
}

/// A token that starts before the tick ends by LAST, which is left out where its length implies it.
fn push_until_last(made: &mut Vec<Bound>, tick: i64, held: Held, lasts: Range) -> Result<(), Memory>
    requires tick { InRange whole tick }
    requires lasts { IsRange (pos 1) lasts }
    ensures { OnOk result (made.new.items ≡ made.old.items ++ until_last tick held lasts) }
{
    if lasts.high < LAST && tick - 1 + lasts.high <= LAST {
        return Ok(());
    }
    push_until(made, held.stop, LAST)
}

/// A token ends at `since` or later, which is left out where its length implies it.
fn push_from_since(
    made: &mut Vec<Bound>,
    since: i64,
    held: Held,
    lasts: Range,
) -> Result<(), Memory>
    requires { InRange whole since }
    ensures { OnOk result (made.new.items ≡ made.old.items ++ from_since since held lasts) }
{
    if since <= lasts.low {
        return Ok(());
    }
    push_from(made, held.stop, since)
}

/// A token of a value that lasts so long.
fn push_within(
    made: &mut Vec<Bound>,
    outlook: Outlook,
    held: Held,
    lasts: Range,
) -> Result<(), Memory>
    requires tick { InRange whole outlook.tick }
    requires since { InRange whole outlook.since }
    requires lasts { IsRange (pos 1) lasts }
    ensures { OnOk result (made.new.items ≡ made.old.items ++ lasting_within outlook.tick outlook.since held lasts) }
{
    push_lasts(made, held, lasts)?;
    push_until_last(made, outlook.tick, held, lasts)?;
    push_from_since(made, outlook.since, held, lasts)
}

/// A token lasts as long as its value may, and ends within `since` and LAST.
#[tactic(auto, using(crate::proofs::KeptLemmas::lasts_range))]
fn push_length(
    made: &mut Vec<Bound>,
    mission: &Mission,
    outlook: Outlook,
    held: Held,
) -> Result<(), Memory>
    requires mission { IsMission mission.now }
    requires tick { InRange whole outlook.tick }
    requires since { InRange whole outlook.since }
    ensures { OnOk result (made.new.items ≡ made.old.items ++ on_some (value_of mission.now held.kind) (λ v. lasting_within outlook.tick outlook.since held v.lasts)) }
{
    match mission.value(held.kind) {
        Some(value) => push_within(made, outlook, held, value.lasts),
        None => Ok(()),
    }
}

/// The point `next`, if there is one, stands no earlier than `stop`.
fn push_next(made: &mut Vec<Bound>, stop: u32, next: Option<u32>) -> Result<(), Memory>
    ensures { OnOk result (made.new.items ≡ made.old.items ++ on_some next (λ y. bound y stop (pos 0) ∷ [])) }
{
    match next {
        Some(start) => push_behind(made, start, stop),
        None => Ok(()),
    }
}

/// A new token behind the point `before`, and in front of the point `next`, if there is one. What
/// other bounds imply is left out.
pub(crate) fn push_cell(
    made: &mut Vec<Bound>,
    mission: &Mission,
    outlook: Outlook,
    before: u32,
    cell: Cell,
    next: Option<u32>,
) -> Result<(), Memory>
    requires mission { IsMission mission.now }
    requires tick { InRange whole outlook.tick }
    requires since { InRange whole outlook.since }
    ensures { OnOk result (made.new.items ≡ made.old.items ++ kept_cell mission.now outlook.tick outlook.since before cell next) }
{
    push_until(made, cell.held.start, outlook.tick - 1)?;
    push_link(made, cell, before)?;
    push_length(made, mission, outlook, cell.held)?;
    push_next(made, cell.held.stop, next)
}
