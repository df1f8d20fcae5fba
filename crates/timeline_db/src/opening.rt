ghost use Rattle.std.specs.Prelude.{◌≡◌, ℕ, ◌+◌, ◌<◌, ◌≤◌, ◌^◌, ◌≤ℤ◌, ◌||◌, All, [], ◌∷◌, ◌++◌, cond, false, flat_map, get_or, length, map, nat_eq, neg_ℤ, option_map, pos, slice_get, unwrap_or, IfOk, OnOk};
ghost use Rattle.hs_base.specs.Bounds.{apart, fixed_bounds, is_fixed, on_some, since_bounds};
ghost use Rattle.hs_base.specs.Missions.{IsMission};
ghost use Rattle.hs_base.specs.Points.{count, value_of};
ghost use Rattle.hs_base.specs.Ranges.{InRange, whole};
ghost use Rattle.hs_base.specs.Schedule.{Meets, Schedule, bound};
ghost use Rattle.plan_check.specs.Seen.{seen};
ghost use Rattle.plan_index.specs.Named.{AreFlags};
ghost use Rattle.search_tree.specs.Begun.{begun_of, stub};
ghost use Rattle.search_tree.specs.Outset.{MayBegin};
ghost use Rattle.search_tree.specs.Partial.{begin};
ghost use Rattle.search_tree.specs.PartialBounds.{begun_bounds, root_bounds};
ghost use Rattle.stn_distance.specs.Ranges.{IsInRange};
ghost use Rattle.stn_trail.specs.declared.part.Part.TheVariants.{Added};
ghost use Rattle.timeline_db.specs.Lines.{row_of};
ghost use Rattle.timeline_db.specs.Opening.{line_bounds, own_bounds};
ghost use Rattle.timeline_db.specs.Plannings.{IsOpen};

use crate::bounding::{push_apart, push_exactly, push_from};
use crate::course::{Course, add_all};
use crate::draft::Draft;
use crate::laying::lay_out;
use crate::line::Line;
use crate::{Db, Shut, Token};
use hs_base::{Bound, Copies, LAST, Memory, Mission, PointId, Range, Time};
use plan_check::Snapshot;
use search_tree::Held;
use std::alloc::Global;
use stn_distance::POINTS;
use stn_trail::Trail;
use token_net::bounds;

const WHOLE: Range = Range { low: 0, high: LAST };

/// A flag for each of so many points, set where one of the times is of it.
fn flags_of(alloc: Global, points: usize, times: &[Time]) -> Result<Vec<bool>, Memory>
    requires { All (λ t. t.point.0 < points) times.now }
    ensures flags { IfOk result (λ v. AreFlags times.now v.items) }
    ensures size { IfOk result (λ v. length v.items ≡ points) }
{
    let mut flags = vec![in alloc; false; points]?;
    for time in times {
        flags[time.point.0 as usize] = true;
    }
    Ok(flags)
}

/// Whether a point was executed: the plan fixes it, or it is flagged as one of the others.
fn was_executed(snapshot: &Snapshot, flags: &[bool], point: usize) -> bool
    requires flags { AreFlags snapshot.now.fixed flags.now }
    requires there { point < length flags.now }
    requires few { length flags.now < 2 ^ 32 }
    ensures { result ≡ is_fixed (stub (begun_of (seen snapshot.now))) point }
{
    snapshot.plan.index().is_fixed(PointId(point as u32)) || flags[point]
}

/// The fixed points have their times.
#[tactic(auto, using(token_net::proofs::ItemLemmas::flat_more))]
fn push_fixed(made: &mut Vec<Bound>, times: &[Time]) -> Result<(), Memory>
    requires { All (λ t. pos 0 ≤ℤ t.at) times.now }
    ensures { OnOk result (made.new.items ≡ made.old.items ++ fixed_bounds times.now) }
{
    for time in times {
        push_exactly(made, time.point.0, time.at)?;
    }
    Ok(())
}

/// A point that is not fixed stands at that time or later.
fn push_since_at(
    made: &mut Vec<Bound>,
    is_fixed: bool,
    point: u32,
    since: i64,
) -> Result<(), Memory>
    requires { pos 0 ≤ℤ since }
    ensures { OnOk result (made.new.items ≡ made.old.items ++ cond is_fixed [] (bound point 0 (neg_ℤ since) ∷ [])) }
{
    if is_fixed {
        return Ok(());
    }
    push_from(made, point, since)
}

/// The points but Z that are not fixed stand at the snapshot's tick or later.
#[tactic(auto, using(token_net::proofs::ItemLemmas::flat_numbers))]
fn push_since(made: &mut Vec<Bound>, snapshot: &Snapshot, flags: &[bool]) -> Result<(), Memory>
    requires flags { AreFlags snapshot.now.fixed flags.now }
    requires size { length flags.now ≡ count (stub (begun_of (seen snapshot.now))) }
    requires few { length flags.now < 2 ^ 32 }
    requires time { InRange whole snapshot.now.since }
    ensures { OnOk result (made.new.items ≡ made.old.items ++ since_bounds (stub (begun_of (seen snapshot.now))) snapshot.now.since) }
{
    for x in 1..flags.len() {
        let executed = was_executed(snapshot, flags, x);
        push_since_at(made, executed, x as u32, snapshot.since)?;
    }
    Ok(())
}

/// The tick of the horizon behind so many.
fn tick_at(mission: &Mission, horizons: usize) -> i64
    ensures { result ≡ unwrap_or (option_map (λ h. h.tick) (slice_get mission.now.horizons horizons)) (pos 0) }
{
    match mission.horizons.as_slice().get(horizons) {
        Some(horizon) => horizon.tick,
        None => 0,
    }
}

/// The bounds that are known without a new token.
fn known_bounds(alloc: Global, snapshot: &Snapshot) -> Result<Vec<Bound>, Memory>
    requires { MayBegin snapshot.now.plan.mission (begun_of (seen snapshot.now)) }
    ensures { IfOk result (λ made. made.items ≡ begun_bounds snapshot.now.plan.mission (begun_of (seen snapshot.now))) }
{
    let mission = snapshot.plan.mission();
    let index = snapshot.plan.index();
    let mark = index.points() as u32;
    let times = snapshot.fixed.as_slice();
    let flags = flags_of(alloc, index.points() + 1, times)?;
    let mut made = bounds(alloc, mission, snapshot.plan.plan())?.into_vec();
    push_exactly(&mut made, mark, tick_at(mission, index.horizons()))?;
    push_apart(&mut made, mark, 0, WHOLE)?;
    push_fixed(&mut made, times)?;
    push_since(&mut made, snapshot, &flags)?;
    Ok(made)
}

/// A new token lasts as long as its value may.
#[tactic(auto, using(base_laws::proofs::MissionLemmas::lasts_low))]
fn push_lasting(made: &mut Vec<Bound>, mission: &Mission, held: Held) -> Result<(), Memory>
    requires { IsMission mission.now }
    ensures { OnOk result (made.new.items ≡ made.old.items ++ on_some (value_of mission.now held.kind) (λ v. apart held.stop held.start v.lasts)) }
{
    match mission.value(held.kind) {
        Some(value) => push_apart(made, held.stop, held.start, value.lasts),
        None => Ok(()),
    }
}

/// All bounds of a new token by itself. `mark` is the point of the next horizon.
fn push_first(
    made: &mut Vec<Bound>,
    mission: &Mission,
    mark: u32,
    since: i64,
    held: Held,
) -> Result<(), Memory>
    requires mission { IsMission mission.now }
    requires since { InRange whole since }
    ensures { OnOk result (made.new.items ≡ made.old.items ++ own_bounds mission.now mark since held) }
{
    push_apart(made, held.start, 0, WHOLE)?;
    push_apart(made, held.stop, 0, WHOLE)?;
    push_lasting(made, mission, held)?;
    made.push(Bound {
        from: PointId(mark),
        to: PointId(held.start),
        most: -1,
    })?;
    push_from(made, held.stop, since)
}

/// The bounds of new tokens by themselves.
#[tactic(auto, using(token_net::proofs::ItemLemmas::flat_more))]
fn push_firsts(
    made: &mut Vec<Bound>,
    mission: &Mission,
    mark: u32,
    since: i64,
    tokens: &[Token],
) -> Result<(), Memory>
    requires mission { IsMission mission.now }
    requires since { InRange whole since }
    ensures { OnOk result (made.new.items ≡ made.old.items ++ flat_map (λ t. own_bounds mission.now mark since t.held) tokens.now) }
{
    for token in tokens {
        push_first(made, mission, mark, since, token.held)?;
    }
    Ok(())
}

/// The bounds of the new tokens of timelines by themselves.
#[tactic(auto, using(token_net::proofs::ItemLemmas::flat_more))]
fn push_lines(
    made: &mut Vec<Bound>,
    mission: &Mission,
    mark: u32,
    since: i64,
    lines: &[Line],
) -> Result<(), Memory>
    requires mission { IsMission mission.now }
    requires since { InRange whole since }
    requires given { All (λ s. s.given ≤ length s.tokens) lines.now }
    ensures { OnOk result (made.new.items ≡ made.old.items ++ flat_map (line_bounds mission.now mark since) lines.now) }
{
    for line in lines {
        push_firsts(made, mission, mark, since, line.added())?;
    }
    Ok(())
}

/// The bounds with which a search begins.
fn opening_bounds(alloc: Global, snapshot: &Snapshot, lines: &[Line]) -> Result<Vec<Bound>, Memory>
    requires begins { MayBegin snapshot.now.plan.mission (begun_of (seen snapshot.now)) }
    requires rows { map row_of lines.now ≡ (begin snapshot.now.plan.mission (begun_of (seen snapshot.now))).rows }
    requires given { All (λ s. s.given ≤ length s.tokens) lines.now }
    ensures { IfOk result (λ made. made.items ≡ root_bounds snapshot.now.plan.mission (begun_of (seen snapshot.now)) (begin snapshot.now.plan.mission (begun_of (seen snapshot.now)))) }
{
    let mut made = known_bounds(alloc, snapshot)?;
    let mark = snapshot.plan.index().points() as u32;
    push_lines(
        &mut made,
        snapshot.plan.mission(),
        mark,
        snapshot.since,
        lines,
    )?;
    Ok(made)
}

/// A trail of bounds that have a schedule, so none of them is refused.
fn trail_of(alloc: Global, points: u32, bounds: &[Bound]) -> Result<Trail, Memory>
    requires points { (1 ≤ points) × (points ≤ POINTS) }
    requires range { All (IsInRange points) bounds.now }
    requires schedule { (t : Schedule) × Meets bounds.now t }
    ensures first { IfOk result (λ t. t.first ≡ points) }
    ensures parts { IfOk result (λ t. t.parts ≡ map (λ b. Added b) bounds.now) }
{
    let mut trail = Trail::begin(alloc, points)?;
    match add_all(&mut trail, bounds) {
        Ok(()) => Ok(trail),
        Err(Shut::Memory) => Err(Memory),
        Err(Shut::Cycle(_)) => unreachable!(),
        Err(Shut::Full) => unreachable!(),
    }
}

impl Db {
    /// The partial plan with which a search for the next horizon begins: the plan's tokens, or a
    /// first one of each variable, with each timeline open.
    pub fn begin(alloc: Global, snapshot: &Snapshot) -> Result<Db, Memory>
        requires { MayBegin snapshot.now.plan.mission (begun_of (seen snapshot.now)) }
        ensures begins { IfOk result (λ d. d ≡ record { mission = snapshot.now.plan.mission; begun = begun_of (seen snapshot.now); parts = [] }) }
        ensures kept { IfOk result IsOpen }
    {
        let board = lay_out(alloc, snapshot)?;
        let made = opening_bounds(alloc, snapshot, &board.lines)?;
        let trail = trail_of(alloc, board.points, &made)?;
        let horizons = snapshot.plan.index().horizons();
        let tick = tick_at(snapshot.plan.mission(), horizons);
        Ok(Db {
            alloc,
            base: snapshot.plan.copy(alloc)?,
            since: snapshot.since,
            fixed: snapshot.fixed.copy(alloc)?,
            tick,
            draft: Draft {
                board,
                course: Course::begin(alloc, trail),
                made: Vec::new(alloc),
            },
        })
    }
}
