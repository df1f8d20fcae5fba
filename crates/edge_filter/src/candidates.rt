ghost use Rattle.std.specs.Prelude.{◌≡◌, ◌<◌, ◌++◌, [], ◌∷◌, ◌≤ℤ◌, neg_ℤ, length, get_or, cond, filter, All, Contains, IfOk, OnOk, MatchOption};
ghost use Rattle.stn_distance.specs.Rows.{items_of};
ghost use Rattle.hs_base.specs.Schedule.{time_of};
ghost use Rattle.hs_base.specs.declared.limits.TheConstants.{LAST};
ghost use Rattle.edge_filter.specs.Weights.{IsRow, IsGrid};
ghost use Rattle.edge_filter.specs.Candidates.{is_other, IsOther, HasOthers, IsPlaced, passes_by, some_passes, is_left, AreNarrowed, AreMarked};

use crate::side::Side;
use hs_base::{Memory, PointId};
use std::alloc::Global;
use stn_distance::Dist;

/// Another leader on one side of a leader, whose edge may be kept.
#[derive(Clone, Copy, Drop)]
pub(crate) struct Candidate {
    /// Its place among the leaders.
    pub(crate) place: usize,
    /// The weight of its edge.
    pub(crate) weight: i64,
    /// Those of the least keys are asked first.
    pub(crate) key: i64,
}

/// Twice the middle of the times that each leader can have.
pub(crate) fn middles_of(alloc: Global, dist: &Dist, leaders: &[u32]) -> Result<Vec<i64>, Memory>
    requires some { 0 < dist.now.count }
    requires leaders { All (λ p. p < dist.now.count) leaders.now }
    ensures { IfOk result (λ v. length v.items ≡ length leaders.now) }
{
    let mut middles = Vec::with_capacity(alloc, leaders.len())?;
    for leader in leaders {
        let latest = dist.at(PointId(0), PointId(*leader));
        let earliest = dist.at(PointId(*leader), PointId(0));
        middles.push(latest - earliest)?;
    }
    Ok(middles)
}

/// Twice how far a leader stands from one on this side, less what the middle times have: what
/// stands between comes first in this order, but for ties.
fn key_of(side: Side, weight: i64, middle: i64) -> i64 {
    let twice = weight.saturating_add(weight);
    match side {
        Side::Incoming => twice.saturating_add(middle),
        Side::Outgoing => twice.saturating_sub(middle),
    }
}

/// Whether the leader at `other` is another one, with an edge of this side.
fn is_on_side(side: Side, place: usize, other: usize, weight: i64) -> bool
    ensures { result ≡ is_other side place other weight }
{
    if other == place {
        return false;
    }
    side.has_sign(weight)
}

/// Takes a candidate, where it is wanted.
fn push_if(candidates: &mut Vec<Candidate>, wanted: bool, next: Candidate) -> Result<(), Memory>
    ensures { OnOk result (candidates.new.items ≡ candidates.old.items ++ cond wanted (next ∷ []) []) }
{
    if wanted {
        candidates.push(next)?;
    }
    Ok(())
}

/// The other leaders on this side of the leader at `place`, by the row of its edges' weights.
pub(crate) fn others_of(
    alloc: Global,
    row: &[i64],
    middles: &[i64],
    side: Side,
    place: usize,
) -> Result<Vec<Candidate>, Memory>
    requires row { IsRow (length row.now) row.now }
    requires middles { length middles.now ≡ length row.now }
    ensures each { IfOk result (λ v. All (IsOther side row.now place) v.items) }
    ensures all { IfOk result (λ v. HasOthers side row.now place (length row.now) v.items) }
{
    let mut others = Vec::with_capacity(alloc, row.len())?;
    for other in 0..row.len() {
        let weight = weight_at(row, other);
        let next = Candidate {
            place: other,
            weight,
            key: key_of(side, weight, middles[other]),
        };
        push_if(&mut others, is_on_side(side, place, other, weight), next)?;
    }
    Ok(others)
}

/// The candidate of the least key.
fn least_of(waiting: &[Candidate]) -> Option<Candidate>
    ensures { MatchOption result (waiting.now ≡ []) (λ b. Contains waiting.now b) }
{
    let mut least = *waiting.first()?;
    for next in waiting {
        if next.key < least.key {
            least = *next;
        }
    }
    Some(least)
}

/// The weight at a place of a row.
fn weight_at(row: &[i64], place: usize) -> i64
    requires row { IsRow (length row.now) row.now }
    requires place { place < length row.now }
    ensures weight { result ≡ time_of row.now place }
    ensures near { (neg_ℤ LAST ≤ℤ result) × (result ≤ℤ LAST) }
{
    row[place]
}

/// The row of a place.
pub(crate) fn row_of(rows: &[Vec<i64>], place: usize) -> &[i64]
    requires { place < length rows.now }
    ensures { result.now ≡ get_or (items_of rows.now) place [] }
{
    rows[place].as_slice()
}

/// Whether a candidate, by the row of its edges' weights, stands on a shortest path between
/// another leader and the one on whose side both are.
fn is_by(row: &[i64], candidate: &Candidate, other: &Candidate) -> bool
    requires row { IsRow (length row.now) row.now }
    requires candidate { IsPlaced (length row.now) candidate.now }
    requires other { IsPlaced (length row.now) other.now }
    ensures { result ≡ passes_by row.now other.now candidate.now }
{
    if other.place == candidate.place {
        return false;
    }
    weight_at(row, other.place) + candidate.weight == other.weight
}

/// Whether one of the candidates does.
fn some_is_by(rows: &[Vec<i64>], candidates: &[Candidate], other: &Candidate) -> bool
    requires rows { IsGrid (length rows.now) (items_of rows.now) }
    requires candidates { All (IsPlaced (length rows.now)) candidates.now }
    requires other { IsPlaced (length rows.now) other.now }
    ensures { result ≡ some_passes (items_of rows.now) candidates.now other.now }
{
    for candidate in candidates {
        if is_by(row_of(rows, candidate.place), candidate, other) {
            return true;
        }
    }
    false
}

/// Whether another leader isn't the candidate, which doesn't pass by it.
fn is_left(row: &[i64], candidate: &Candidate, other: &Candidate) -> bool
    requires row { IsRow (length row.now) row.now }
    requires candidate { IsPlaced (length row.now) candidate.now }
    requires other { IsPlaced (length row.now) other.now }
    ensures { result ≡ is_left row.now candidate.now other.now }
{
    let is_same = other.place == candidate.place;
    if is_same {
        return false;
    }
    !is_by(row, candidate, other)
}

/// Those that are left after a candidate.
fn left_by(
    alloc: Global,
    row: &[i64],
    waiting: &[Candidate],
    candidate: &Candidate,
) -> Result<Vec<Candidate>, Memory>
    requires row { IsRow (length row.now) row.now }
    requires waiting { All (IsPlaced (length row.now)) waiting.now }
    requires candidate { IsPlaced (length row.now) candidate.now }
    ensures { IfOk result (λ v. v.items ≡ filter (is_left row.now candidate.now) waiting.now) }
{
    let mut left = Vec::with_capacity(alloc, waiting.len())?;
    for next in waiting {
        push_if(&mut left, is_left(row, candidate, next), *next)?;
    }
    Ok(left)
}

/// Those whose edges pass by none of those before them. What stands between is asked first, so that
/// few are left; whichever order, only dominated edges are dropped.
pub(crate) fn narrowed(
    alloc: Global,
    rows: &[Vec<i64>],
    others: &[Candidate],
) -> Result<Vec<Candidate>, Memory>
    requires rows { IsGrid (length rows.now) (items_of rows.now) }
    requires others { All (IsPlaced (length rows.now)) others.now }
    ensures { IfOk result (λ v. AreNarrowed (items_of rows.now) others.now v.items) }
{
    let mut waiting = Vec::from_slice(alloc, others)?;
    let mut candidates = Vec::new(alloc);
    'candidates: while let Some(candidate) = least_of(&waiting) {
        candidates.push(candidate)?;
        waiting = left_by(alloc, row_of(rows, candidate.place), &waiting, &candidate)?;
    }
    Ok(candidates)
}

/// Marks the places of the candidates by which no other passes.
pub(crate) fn unpassed(
    alloc: Global,
    rows: &[Vec<i64>],
    candidates: &[Candidate],
) -> Result<Vec<bool>, Memory>
    requires rows { IsGrid (length rows.now) (items_of rows.now) }
    requires candidates { All (IsPlaced (length rows.now)) candidates.now }
    ensures { IfOk result (λ v. AreMarked (items_of rows.now) candidates.now candidates.now v.items) }
{
    let mut marks = vec![in alloc; false; rows.len()]?;
    for candidate in candidates {
        if !some_is_by(rows, candidates, candidate) {
            marks[candidate.place] = true;
        }
    }
    Ok(marks)
}
