ghost use Rattle.std.specs.Prelude.{◌≡◌, ℕ, ◌<◌, ◌++◌, List, [], ◌∷◌, ◌||◌, cond, map, length, get_or, IfOk, OnOk};
ghost use Rattle.stn_distance.specs.Distances.{Distances, weight};
ghost use Rattle.hs_base.specs.Reduced.{leaders, group_of, edges_from, edges_of};
ghost use Rattle.stn_distance.specs.Rows.{items_of};
ghost use Rattle.edge_filter.specs.Sides.{is_kept_on};
ghost use Rattle.edge_filter.specs.Weights.{IsGrid, weights_on};
ghost use Rattle.edge_filter.specs.Marks.{AreLeaders, leaders_in, rows_in, mark_at, marks_on};

use crate::candidates::{middles_of, narrowed, others_of, row_of, unpassed};
use crate::side::Side;
use crate::weights::weights_between;
use hs_base::{Bound, Group, List, Memory, PointId};
use std::alloc::Global;
use stn_distance::Dist;

/// The leaders of groups.
fn leaders_of(alloc: Global, groups: &[Group]) -> Result<Vec<u32>, Memory>
    ensures { IfOk result (λ v. v.items ≡ leaders_in groups.now) }
{
    let mut leaders = Vec::with_capacity(alloc, groups.len())?;
    for group in groups {
        leaders.push(group.leader.0)?;
    }
    Ok(leaders)
}

/// Which edges between the leader at `place` and each of them are kept, of those on the side whose
/// weights the rows have.
fn kept_on(
    alloc: Global,
    rows: &[Vec<i64>],
    middles: &[i64],
    side: Side,
    place: usize,
) -> Result<Vec<bool>, Memory>
    requires rows { IsGrid (length rows.now) (items_of rows.now) }
    requires middles { length middles.now ≡ length rows.now }
    requires place { place < length rows.now }
    ensures { IfOk result (λ v. (d : Distances) (ls : List ℕ) → AreLeaders d ls → items_of rows.now ≡ weights_on side (weight d) ls ls → v.items ≡ map (is_kept_on side (weight d) ls (get_or ls place 0)) ls) }
{
    let others = others_of(alloc, row_of(rows, place), middles, side, place)?;
    let candidates = narrowed(alloc, rows, &others)?;
    let marks = unpassed(alloc, rows, &candidates)?;
    Ok(marks)
}

/// Which edges between leaders are on this side and kept, a row for each leader.
fn rows_on(
    alloc: Global,
    dist: &Dist,
    leaders: &[u32],
    middles: &[i64],
    side: Side,
) -> Result<Vec<Vec<bool>>, Memory>
    requires leaders { AreLeaders dist.now leaders.now }
    requires middles { length middles.now ≡ length leaders.now }
    ensures { IfOk result (λ v. rows_in v.items ≡ marks_on side (weight dist.now) leaders.now leaders.now) }
{
    let weights = weights_between(alloc, dist, leaders, side)?;
    let mut rows = Vec::with_capacity(alloc, weights.len())?;
    for place in 0..weights.len() {
        rows.push(kept_on(alloc, &weights, middles, side, place)?)?;
    }
    Ok(rows)
}

/// Takes a bound, where it is wanted.
fn push_if(bounds: &mut Vec<Bound>, wanted: bool, bound: Bound) -> Result<(), Memory>
    ensures { OnOk result (bounds.new.items ≡ bounds.old.items ++ cond wanted (bound ∷ []) []) }
{
    if wanted {
        bounds.push(bound)?;
    }
    Ok(())
}

/// Whether the edge from the leader at `i` to that at `j` is marked on either side.
fn is_marked(incoming: &[Vec<bool>], outgoing: &[Vec<bool>], i: usize, j: usize) -> bool
    requires column { j < length incoming.now }
    requires row { i < length outgoing.now }
    requires in_column { i < length (get_or (rows_in incoming.now) j []) }
    requires in_row { j < length (get_or (rows_in outgoing.now) i []) }
    ensures { result ≡ (mark_at (rows_in incoming.now) j i || mark_at (rows_in outgoing.now) i j) }
{
    if incoming[j][i] {
        return true;
    }
    outgoing[i][j]
}

/// Takes the kept edges from the leader at `i`.
fn push_edges(
    dist: &Dist,
    leaders: &[u32],
    incoming: &[Vec<bool>],
    outgoing: &[Vec<bool>],
    i: usize,
    edges: &mut Vec<Bound>,
) -> Result<(), Memory>
    requires leaders { AreLeaders dist.now leaders.now }
    requires place { i < length leaders.now }
    requires incoming { rows_in incoming.now ≡ marks_on Side.Incoming (weight dist.now) leaders.now leaders.now }
    requires outgoing { rows_in outgoing.now ≡ marks_on Side.Outgoing (weight dist.now) leaders.now leaders.now }
    ensures { OnOk result (edges.new.items ≡ edges.old.items ++ edges_from (weight dist.now) leaders.now (get_or leaders.now i 0)) }
{
    let from = PointId(leaders[i]);
    for j in 0..leaders.len() {
        let to = PointId(leaders[j]);
        let most = dist.at(from, to);
        push_if(
            edges,
            is_marked(incoming, outgoing, i, j),
            Bound { from, to, most },
        )?;
    }
    Ok(())
}

/// The edges between the leaders of a network's groups that no edge dominates (Muscettola,
/// Morris, Tsamardinos 1998), by `from`, then `to`.
///
/// A dominated edge is dominated by a kept one. So for each leader a few candidates, among them
/// all kept edges on one side of it, tell which of these are kept.
pub fn keep(alloc: Global, dist: &Dist, groups: &List<Group>) -> Result<List<Bound>, Memory>
    requires { groups.now ≡ map (group_of dist.now.count (weight dist.now)) (leaders dist.now.count (weight dist.now)) }
    ensures { IfOk result (λ es. es ≡ edges_of (weight dist.now) (leaders dist.now.count (weight dist.now))) }
{
    let _ = dist.points();
    let leaders = leaders_of(alloc, groups.as_slice())?;
    let middles = middles_of(alloc, dist, &leaders)?;
    let incoming = rows_on(alloc, dist, &leaders, &middles, Side::Incoming)?;
    let outgoing = rows_on(alloc, dist, &leaders, &middles, Side::Outgoing)?;
    let mut edges = Vec::new(alloc);
    for i in 0..leaders.len() {
        push_edges(dist, &leaders, &incoming, &outgoing, i, &mut edges)?;
    }
    Ok(List::from_vec(edges))
}
