ghost use Rattle.std.specs.Prelude.{◌≡◌, ◌^◌, ◌<◌, IfOk, Some};
ghost use Rattle.hs_machine.specs.State.{count_at, hands_over};

use ddl_read::Pieces;
use hs_base::{Bound, Extension, List, Memory, Net, PointId, SvId};
use hs_machine::{Deed, Entry};
use hs_texts::Refusal;
use journal_read::{Noted, read};
use journal_text::write;
use sample_missions::{camera, camera_extension, smallest_extension};
use std::alloc::Global;
use std::test::Fail;

fn bound(from: u32, to: u32, most: i64) -> Bound {
    Bound {
        from: PointId(from),
        to: PointId(to),
        most,
    }
}

fn no_net(alloc: Global) -> Net {
    Net {
        groups: List::new(alloc),
        edges: List::new(alloc),
    }
}

fn noted(at: i64, what: Deed) -> Noted {
    Noted {
        at,
        what,
        groups: 0,
        edges: 0,
    }
}

fn noted_handover(alloc: Global, extension: Extension, groups: u32, edges: u32) -> Noted {
    let net = no_net(alloc);
    Noted {
        at: 0,
        what: Deed::Handover { extension, net },
        groups,
        edges,
    }
}

/// A plan that came too late.
fn stale(alloc: Global) -> Result<Deed, Memory> {
    let mut extension = smallest_extension(alloc)?;
    extension.base = 1;
    Ok(Deed::Stale {
        extension,
        bound: bound(9, 8, -1),
        from_time: 12,
        to_time: 11,
    })
}

/// What the log below tells.
fn told(alloc: Global) -> Result<Vec<Noted>, Memory> {
    let first = noted_handover(alloc, camera_extension(alloc)?, 4, 7);
    let late = stale(alloc)?;
    Ok(vec![in alloc;
        first,
        noted(1, Deed::Fire(PointId(2))),
        noted(2, Deed::Report(PointId(5))),
        noted(3, late),
        noted(4, Deed::Fire(PointId(1))),
        noted(5, Deed::Late(bound(5, 4, 1))),
        noted(6, Deed::Early(bound(0, 3, -3))),
        noted(7, Deed::Broken(SvId(1))),
    ]?)
}

/// Whether the text of a log is read as these entries.
fn is_read(alloc: Global, text: &[u8], entries: &[Noted]) -> Result<bool, Refusal> {
    let mission = camera(alloc)?;
    let pieces = Pieces::cut(alloc, text)?;
    let noted = read(alloc, &mission, &pieces, 0)?;
    Ok(noted.as_slice() == entries)
}

/// Whether the text is read as what it tells.
fn is_told(alloc: Global, text: &[u8]) -> Result<bool, Refusal> {
    let told = told(alloc)?;
    is_read(alloc, text, told.as_slice())
}

#[test]
fn reads_each_kind_of_entry(rt: HostRuntime) -> Result<(), Fail> {
    let text =
        b"hsts log 1\nhandover 1 at 0 groups 4 edges 7\nsince 0\ntoken camera idle\ntoken camera shoot\ntoken camera idle\ntoken attitude earth\ntoken attitude turn\ntoken attitude comet\nsupport camera 1 0 attitude 2\ngoal 0 camera 1\nclose\nfire camera 0 at 1\nreport attitude 0 at 2\nstale 2 at 3 bound camera 3 to H 2 most -1 times 12 11\nsince 0\ntoken camera idle\ntoken camera shoot\nclose\nhorizon 1 at 4\nlate attitude 0 to camera 2 most 1 at 5\nearly Z to camera 1 most -3 at 6\nbroken attitude at 7\nstop failed at 7\n";
    assert!(rt; matches!(is_told(rt.alloc(), text), Ok(true)));
    Ok(())
}

fn edges(alloc: Global) -> Result<List<Bound>, Memory> {
    let edges = [bound(0, 2, 40), bound(2, 0, -20)];
    Ok(List::from_vec(Vec::from_slice(alloc, &edges)?))
}

fn entry(deed: Deed) -> Entry
    ensures { result.deed ≡ deed }
{
    Entry { by: 0, deed }
}

fn handover(alloc: Global, extension: Extension) -> Result<Entry, Memory>
    ensures { IfOk result (λ e. hands_over e.deed ≡ Some extension) }
{
    let net = Net {
        groups: List::new(alloc),
        edges: edges(alloc)?,
    };
    Ok(entry(Deed::Handover { extension, net }))
}

/// A history that ends a tick after it fired a point.
fn fired(alloc: Global) -> Result<Vec<Entry>, Memory>
    ensures { IfOk result (λ history. count_at history.items < 2 ^ 32) }
{
    let first = handover(alloc, camera_extension(alloc)?)?;
    Ok(vec![in alloc;
        first,
        entry(Deed::Tick),
        entry(Deed::Fire(PointId(2))),
        entry(Deed::Tick),
    ]?)
}

/// What its log tells.
fn fired_told(alloc: Global) -> Result<Vec<Noted>, Memory> {
    let first = noted_handover(alloc, camera_extension(alloc)?, 0, 2);
    Ok(vec![in alloc; first, noted(1, Deed::Fire(PointId(2)))]?)
}

/// Whether the history's log is read back as these entries.
fn is_read_back(alloc: Global) -> Result<bool, Refusal> {
    let history = fired(alloc)?;
    let mission = camera(alloc)?;
    let text = write(alloc, &mission, history.as_slice())?;
    let told = fired_told(alloc)?;
    is_read(alloc, text.as_bytes(), told.as_slice())
}

#[test]
fn reads_back_what_is_written(rt: HostRuntime) -> Result<(), Fail> {
    assert!(rt; matches!(is_read_back(rt.alloc()), Ok(true)));
    Ok(())
}
