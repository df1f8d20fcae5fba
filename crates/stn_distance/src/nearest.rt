ghost use Rattle.std.specs.Prelude.{◌≡◌, ◌+◌, ◌*◌, ◌<◌, ◌≤◌, length, All, OnOk, IfOk, IsPermutation};
ghost use Rattle.std.specs.BinaryHeap.{heap_len};
ghost use Rattle.stn_distance.specs.Rows.{IsStep, Sample, Reaches, room, AreSmall, IsIndex};

use hs_base::{Bound, Memory};
use std::alloc::Global;
use std::cmp::Reverse;
use std::collections::BinaryHeap;

/// Points to go on from, the nearest first.
type Queue = BinaryHeap<Reverse<(i64, u32)>>;

/// Lowers what the bounds from `low` to `high` want lower.
fn pass_on(
    count: usize,
    bounds: &[Bound],
    low: usize,
    high: usize,
    potentials: &[i64],
    source: usize,
    row: &mut [i64],
    waiting: &mut [bool],
    queue: &mut Queue,
) -> Result<(), Memory>
    requires source { source < count }
    requires part { (low ≤ high) × (high ≤ length bounds.now) }
    requires range { All (IsStep count) bounds.now }
    requires sample { Sample count bounds.now }
    requires potentials { AreSmall count potentials.now }
    requires waiting { length waiting.old ≡ count }
    requires reaches { Reaches count bounds.now source row.old }
    ensures reaches { OnOk result (Reaches count bounds.now source row.new) }
    ensures measure { OnOk result (2 * room row.new + heap_len queue.new ≤ 2 * room row.old + heap_len queue.old) }
{
    for i in low..high {
        let bound = bounds[i];
        let from = bound.from.0 as usize;
        let to = bound.to.0 as usize;
        let reached = row[from] + bound.most;
        if reached < row[to] {
            row[to] = reached;
            waiting[to] = true;
            queue.push(Reverse((reached - potentials[to], bound.to.0)))?;
        }
    }
    Ok(())
}

/// Lowers the row from the nearest point on (Dijkstra 1959). With differences of times from the
/// potentials, which are a schedule, no point is worked on twice (Johnson 1977).
pub(crate) fn approach(
    alloc: Global,
    count: usize,
    bounds: &[Bound],
    first: &[usize],
    potentials: &[i64],
    source: u32,
    row: &mut [i64],
) -> Result<(), Memory>
    requires source { source < count }
    requires index { IsIndex count (length bounds.now) first.now }
    requires range { All (IsStep count) bounds.now }
    requires sample { Sample count bounds.now }
    requires potentials { AreSmall count potentials.now }
    requires reaches { Reaches count bounds.now source row.old }
    ensures { OnOk result (Reaches count bounds.now source row.new) }
{
    let mut queue = BinaryHeap::new(alloc);
    let mut waiting = vec![in alloc; false; count]?;
    waiting[source as usize] = true;
    queue.push(Reverse((0, source)))?;
    'points: while let Some(Reverse((_, point))) = queue.pop() {
        let point = point as usize;
        if point < count && waiting[point] {
            waiting[point] = false;
            pass_on(
                count,
                bounds,
                first[point],
                first[point + 1],
                potentials,
                source as usize,
                row,
                &mut waiting,
                &mut queue,
            )?;
        }
    }
    Ok(())
}

/// The bounds by their starts.
pub(crate) fn by_start(alloc: Global, bounds: &[Bound]) -> Result<Vec<Bound>, Memory>
    ensures { IfOk result (λ v. IsPermutation bounds.now v.items) }
{
    let mut sorted = Vec::from_slice(alloc, bounds)?;
    sorted.sort_by_key(|bound| bound.from.0)?;
    Ok(sorted)
}

/// Where the bounds of each point begin in a list by their starts.
pub(crate) fn index_of(alloc: Global, count: usize, bounds: &[Bound]) -> Result<Vec<usize>, Memory>
    requires { count ≤ 131072 }
    ensures { IfOk result (λ v. IsIndex count (length bounds.now) v.items) }
{
    let mut first = Vec::new(alloc);
    let mut at = 0;
    for point in 0..count {
        first.push(at)?;
        while at < bounds.len() && bounds[at].from.0 as usize <= point {
            at += 1;
        }
    }
    first.push(bounds.len())?;
    Ok(first)
}
