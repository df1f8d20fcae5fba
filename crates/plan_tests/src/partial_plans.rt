ghost use Rattle.std.specs.Prelude.{◌≡◌, [], IfOk};

use crate::checks::mission;
use crate::searches::outset;
use hs_base::{Kind, Memory, SvId, ValId};
use std::alloc::Global;
use std::test::Fail;
use timeline_db::Db;

const CAMERA: SvId = SvId(0);

const ATTITUDE: SvId = SvId(1);

/// The camera mission's partial plan where nothing has happened yet.
pub(crate) fn root(alloc: Global) -> Result<Db, Memory>
    ensures { IfOk result (λ d. d.parts ≡ []) }
{
    let mission = mission(alloc)?;
    let snapshot = outset(alloc, &mission)?;
    Db::begin(alloc, &snapshot)
}

fn kind(sv: SvId, value: u32) -> Kind {
    Kind {
        sv,
        value: ValId(value),
    }
}

/// Whether a first token stands on that variable's timeline, with an open end.
fn is_begun(db: &Db, sv: SvId) -> bool {
    match db.line(sv) {
        Some(line) => line.len() == 1 && line.given() == 0 && !line.is_finished(),
        None => false,
    }
}

/// Whether there is room, and the goal and what may follow the attitude's first value are known.
fn is_open(db: &Db) -> bool {
    db.has_room()
        && db.is_within()
        && db.wanted(0) == Some(kind(CAMERA, 1))
        && db.next(kind(ATTITUDE, 0)) == [ValId(1)].as_slice()
}

/// Whether all is lacking.
fn lacks_all(db: &Db) -> bool {
    db.open_goal() == Some(0) && db.open_need().is_none() && db.open_slot() == Some((CAMERA, 0))
}

/// The partial plan behind these is made in the tests of resolvers.
#[test]
fn begins_with_first_tokens(rt: HostRuntime) -> Result<(), Fail> {
    let db = root(rt.alloc())?;
    assert!(rt; is_begun(&db, CAMERA));
    assert!(rt; is_begun(&db, ATTITUDE));
    assert!(rt; is_open(&db));
    assert!(rt; lacks_all(&db));
    Ok(())
}
