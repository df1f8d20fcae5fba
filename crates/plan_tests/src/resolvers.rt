ghost use Rattle.std.specs.Prelude.{◌≡◌, []};

use crate::partial_plans::root;
use compat_resolve::{Flaw, Resolver, apply, first_flaw, resolvers, resolvers_in};
use hs_base::{Extension, Memory, SvId, TokenRef, ValId};
use sample_missions::camera_extension;
use std::alloc::Global;
use std::test::Fail;
use timeline_db::{Db, Shut};

/// The numbers of the ways that lead to the camera mission's plan.
const PATH: [usize; 8] = [0, 0, 0, 1, 0, 0, 0, 0];

/// Resolves the first flaw in the way of that number, and answers whether that has a schedule.
fn descend(alloc: Global, db: &mut Db, way: usize) -> Result<bool, Memory> {
    let Some(flaw) = first_flaw(db) else {
        return Ok(false);
    };
    let ways = resolvers(alloc, db, flaw)?;
    if way >= ways.len() {
        return Ok(false);
    }
    match apply(db, flaw, &ways[way]) {
        Ok(()) => Ok(true),
        Err(Shut::Memory) => Err(Memory),
        Err(_) => Ok(false),
    }
}

/// Resolves flaws in the ways of these numbers, as long as there is a schedule.
fn walk(alloc: Global, db: &mut Db, path: &[usize]) -> Result<bool, Memory> {
    for way in path {
        if !descend(alloc, db, *way)? {
            return Ok(false);
        }
    }
    Ok(true)
}

/// Whether that is the first flaw, and these are its ways, in their order, also in the room of a
/// list that has them.
fn is_first(alloc: Global, db: &Db, flaw: Flaw, ways: &[Resolver]) -> Result<bool, Memory> {
    let Some(first) = first_flaw(db) else {
        return Ok(false);
    };
    let room = resolvers(alloc, db, first)?;
    Ok(first == flaw && resolvers_in(room, db, first)?.as_slice() == ways)
}

/// Whether that path leads to them.
fn leads_to(
    alloc: Global,
    db: &mut Db,
    path: &[usize],
    flaw: Flaw,
    ways: &[Resolver],
) -> Result<bool, Memory> {
    Ok(walk(alloc, db, path)? && is_first(alloc, db, flaw, ways)?)
}

/// Whether they are behind that path.
fn is_behind(alloc: Global, path: &[usize], flaw: Flaw, ways: &[Resolver]) -> Result<bool, Memory> {
    let mut db = root(alloc)?;
    leads_to(alloc, &mut db, path, flaw, ways)
}

fn gap(sv: u32, place: u32) -> Flaw {
    Flaw::Gap {
        sv: SvId(sv),
        place,
    }
}

fn insert(sv: u32, place: u32, value: u32) -> Resolver {
    Resolver::Insert {
        sv: SvId(sv),
        place,
        value: ValId(value),
    }
}

fn follow(value: u32) -> Resolver {
    Resolver::Follow {
        value: ValId(value),
    }
}

#[test]
fn a_goal_comes_before_a_need(rt: HostRuntime) -> Result<(), Fail> {
    let alloc = rt.alloc();
    let shot = TokenRef {
        sv: SvId(0),
        place: 1,
    };
    let need = Flaw::Need {
        token: shot,
        need: 0,
    };
    assert!(rt; is_behind(alloc, &[], Flaw::Goal(0), &[insert(0, 0, 1)])?);
    assert!(rt; is_behind(alloc, &[0], need, &[insert(1, 0, 2)])?);
    Ok(())
}

#[test]
fn a_gap_is_joined_or_followed(rt: HostRuntime) -> Result<(), Fail> {
    let alloc = rt.alloc();
    let closed = [Resolver::Join, follow(1)];
    let ended = [Resolver::Finish, follow(1)];
    assert!(rt; is_behind(alloc, &PATH[..2], gap(0, 0), &closed)?);
    assert!(rt; is_behind(alloc, &PATH[..4], gap(0, 2), &ended)?);
    assert!(rt; is_behind(alloc, &PATH[..5], gap(1, 0), &[follow(1)])?);
    Ok(())
}

/// Whether a shot that never ends is refused, and a token may follow it.
fn refuses(alloc: Global, db: &mut Db) -> Result<bool, Memory> {
    let ways = [Resolver::Finish, follow(0)];
    let walked = walk(alloc, db, &PATH[..3])?;
    let refused = !descend(alloc, db, 0)?;
    let same = is_first(alloc, db, gap(0, 1), &ways)?;
    let followed = descend(alloc, db, 1)?;
    Ok(walked && refused && same && followed)
}

/// Whether the partial plan of the camera mission refuses it.
fn is_refused(alloc: Global) -> Result<bool, Memory> {
    let mut db = root(alloc)?;
    refuses(alloc, &mut db)
}

#[test]
fn a_refused_way_changes_nothing(rt: HostRuntime) -> Result<(), Fail> {
    assert!(rt; is_refused(rt.alloc())?);
    Ok(())
}

/// The extension that a partial plan is, where the whole path leads to one without flaw.
fn end_of(alloc: Global, db: &mut Db) -> Result<Option<Extension>, Memory> {
    if walk(alloc, db, &PATH)? && first_flaw(db).is_none() {
        return Ok(Some(db.extension()?));
    }
    Ok(None)
}

/// The extension at the end of the path.
fn resolved(alloc: Global) -> Result<Option<Extension>, Memory> {
    let mut db = root(alloc)?;
    end_of(alloc, &mut db)
}

#[test]
fn ends_at_the_plan(rt: HostRuntime) -> Result<(), Fail> {
    let plan = camera_extension(rt.alloc())?;
    assert!(rt; resolved(rt.alloc())? == Some(plan));
    Ok(())
}

/// Whether the first flaw is there again after an undo.
fn leads_back(alloc: Global, db: &mut Db) -> Result<bool, Memory>
    requires { db.old.parts ≡ [] }
{
    let mark = db.mark();
    let walked = walk(alloc, db, &PATH)?;
    db.undo(mark);
    Ok(walked && is_first(alloc, db, Flaw::Goal(0), &[insert(0, 0, 1)])?)
}

/// Whether an undo leads back to the partial plan of the camera mission.
fn is_undone(alloc: Global) -> Result<bool, Memory> {
    let mut db = root(alloc)?;
    leads_back(alloc, &mut db)
}

#[test]
fn an_undo_leads_back(rt: HostRuntime) -> Result<(), Fail> {
    assert!(rt; is_undone(rt.alloc())?);
    Ok(())
}
