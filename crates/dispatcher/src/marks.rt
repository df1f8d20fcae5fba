ghost use Rattle.std.specs.Prelude.{◌≡◌, ◌<◌, length, All};
ghost use Rattle.std.specs.List.{count_by, slice_index_or};
ghost use Rattle.std.specs.Option.{is_none};
ghost use Rattle.std.specs.Bool.{OnTrue, OnFalse};
ghost use Rattle.hs_base.specs.declared.net.Bound.{Bound};
ghost use Rattle.dispatcher.specs.Marks.{AreMarked, AreSound, AreTimed, IsEdge, IsMet, holder, leader_time};

use crate::places::Place;
use hs_base::{Bound, PointId};
use local_propagate::Windows;

/// The set leader from which an edge holds its second end at `now`, where that end isn't set.
fn holder(
    edge: Bound,
    windows: &Windows,
    places: &[Place],
    now: i64,
    marks: &[Option<PointId>],
) -> Option<PointId>
    requires edge { IsEdge (length marks.now) edge }
    requires timed { AreTimed (length marks.now) windows.now places.now }
    ensures { result ≡ holder (leader_time windows.now places.now) now marks.now edge }
{
    match windows.time(places[edge.to.0 as usize].group) {
        Some(_) => None,
        None => match windows.time(places[edge.from.0 as usize].group) {
            Some(at) if at + edge.most == now => Some(edge.from),
            Some(_) => None,
            None if edge.most == 0 => marks[edge.from.0 as usize],
            None => None,
        },
    }
}

/// Marks what an edge holds at `now`, and says whether that is new.
fn mark_end(
    edges: &[Bound],
    i: usize,
    windows: &Windows,
    places: &[Place],
    now: i64,
    marks: &mut [Option<PointId>],
) -> bool
    requires i_in { i < length edges.now }
    requires edges { All (IsEdge (length marks.old)) edges.now }
    requires timed { AreTimed (length marks.old) windows.now places.now }
    requires sound { AreSound edges.now (leader_time windows.now places.now) now marks.old }
    ensures sound { AreSound edges.now (leader_time windows.now places.now) now marks.new }
    ensures fewer { OnTrue result (count_by is_none marks.new < count_by is_none marks.old) }
    ensures kept { OnFalse result (marks.new ≡ marks.old) }
    ensures met { OnFalse result ((d : Bound) → IsMet (leader_time windows.now places.now) now marks.old (slice_index_or edges.now i d)) }
{
    let edge = edges[i];
    let to = edge.to.0 as usize;
    let held = holder(edge, windows, places, now, marks);
    if held.is_none() || marks[to].is_some() {
        return false;
    }
    marks[to] = held;
    true
}

/// One turn over the edges.
fn mark_turn(
    edges: &[Bound],
    windows: &Windows,
    places: &[Place],
    now: i64,
    marks: &mut [Option<PointId>],
) -> bool
    requires edges { All (IsEdge (length marks.old)) edges.now }
    requires timed { AreTimed (length marks.old) windows.now places.now }
    requires sound { AreSound edges.now (leader_time windows.now places.now) now marks.old }
    ensures sound { AreSound edges.now (leader_time windows.now places.now) now marks.new }
    ensures fewer { OnTrue result (count_by is_none marks.new < count_by is_none marks.old) }
    ensures met { OnFalse result (All (IsMet (leader_time windows.now places.now) now marks.new) edges.now) }
{
    let mut more = false;
    for i in 0..edges.len() {
        if mark_end(edges, i, windows, places, now, marks) {
            more = true;
        }
    }
    more
}

/// Marks the unset leaders that are forced at `now`, each with the set leader that it comes from.
pub fn mark(
    edges: &[Bound],
    windows: &Windows,
    places: &[Place],
    now: i64,
    marks: &mut [Option<PointId>],
)
    requires edges { All (IsEdge (length marks.old)) edges.now }
    requires timed { AreTimed (length marks.old) windows.now places.now }
    ensures { AreMarked edges.now (leader_time windows.now places.now) now marks.new }
{
    for i in 0..marks.len() {
        marks[i] = None;
    }
    'turns: while mark_turn(edges, windows, places, now, marks) {}
}
