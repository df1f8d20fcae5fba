ghost use Rattle.std.specs.Prelude.{◌≡◌, ◌+◌, ◌^◌, ◌<◌, length, IfOk};
ghost use Rattle.hs_machine.specs.State.{count_at};

use hs_base::{Bound, Extension, Group, List, Memory, Net, PointId, Time};
use hs_machine::{Deed, Entry};
use journal_text::write;
use sample_missions::{camera, camera_extension, smallest_extension};
use std::alloc::Global;
use std::test::Fail;

fn bound(from: u32, to: u32, most: i64) -> Bound {
    Bound {
        from: PointId(from),
        to: PointId(to),
        most,
    }
}

fn groups(alloc: Global, count: usize) -> Result<List<Group>, Memory> {
    let mut groups = List::new(alloc);
    for _ in 0..count {
        groups.push(Group {
            leader: PointId(0),
            members: List::new(alloc),
        })?;
    }
    Ok(groups)
}

fn edges(alloc: Global, count: usize) -> Result<List<Bound>, Memory> {
    let mut edges = List::new(alloc);
    for _ in 0..count {
        edges.push(bound(0, 0, 0))?;
    }
    Ok(edges)
}

/// Of a network its log tells the sizes alone.
fn net(alloc: Global, group_count: usize, edge_count: usize) -> Result<Net, Memory> {
    Ok(Net {
        groups: groups(alloc, group_count)?,
        edges: edges(alloc, edge_count)?,
    })
}

/// An extension of a plan that has one, from that tick on.
fn next_extension(alloc: Global, since: i64) -> Result<Extension, Memory>
    ensures { IfOk result (λ e. length e.tokens ≡ 2) }
{
    let mut extension = smallest_extension(alloc)?;
    extension.base = 1;
    extension.since = since;
    Ok(extension)
}

/// One that fixes a point of the first.
fn fixing_extension(alloc: Global) -> Result<Extension, Memory>
    ensures { IfOk result (λ e. length e.tokens ≡ 2) }
{
    let mut extension = next_extension(alloc, 1)?;
    extension.fixed.push(Time {
        point: PointId(2),
        at: 1,
    })?;
    Ok(extension)
}

fn entry(deed: Deed) -> Entry
    ensures { result.deed ≡ deed }
{
    Entry { by: 0, deed }
}

fn handover(extension: Extension, net: Net) -> Entry
    ensures { result.deed ≡ Deed.Handover extension net }
{
    entry(Deed::Handover { extension, net })
}

fn tick() -> Entry
    ensures { result.deed ≡ Deed.Tick }
{
    entry(Deed::Tick)
}

/// A history with a plan that comes too late, a report and a failure.
fn troubled(alloc: Global) -> Result<Vec<Entry>, Memory>
    ensures { IfOk result (λ history. count_at history.items + 1 < 2 ^ 32) }
{
    let first = handover(camera_extension(alloc)?, net(alloc, 4, 7)?);
    let second = handover(fixing_extension(alloc)?, net(alloc, 5, 9)?);
    let stale = Deed::Stale {
        extension: next_extension(alloc, 0)?,
        bound: bound(9, 8, -1),
        from_time: 12,
        to_time: 11,
    };
    Ok(vec![in alloc;
        first,
        tick(),
        entry(Deed::Report(PointId(2))),
        entry(stale),
        second,
        tick(),
        entry(Deed::Late(bound(5, 9, 1))),
    ]?)
}

/// Whether its log has these lines.
fn is_troubled_log(alloc: Global, lines: &[u8]) -> Result<bool, Memory> {
    let history = troubled(alloc)?;
    let mission = camera(alloc)?;
    let text = write(alloc, &mission, history.as_slice())?;
    Ok(text.as_bytes() == lines)
}

#[test]
fn writes_a_stale_plan_and_a_failure(rt: HostRuntime) -> Result<(), Fail> {
    let lines =
        b"hsts log 1\nhandover 1 at 0 groups 4 edges 7\nsince 0\ntoken camera idle\ntoken camera shoot\ntoken camera idle\ntoken attitude earth\ntoken attitude turn\ntoken attitude comet\nsupport camera 1 0 attitude 2\ngoal 0 camera 1\nclose\nreport camera 0 at 1\nstale 2 at 1 bound camera 3 to H 2 most -1 times 12 11\nsince 0\ntoken camera idle\ntoken camera shoot\nclose\nhandover 2 at 1 groups 5 edges 9\nsince 1\nfix camera 0 1\ntoken camera idle\ntoken camera shoot\nclose\nlate attitude 0 to camera 3 most 1 at 2\nstop failed at 2\n";
    assert!(rt; matches!(is_troubled_log(rt.alloc(), lines), Ok(true)));
    Ok(())
}
