ghost use Rattle.std.specs.Prelude.{◌≡◌, length, IfOk};

use hs_base::{Extension, Kind, Memory, PointId, SvId, Time, TokenRef, ValId};
use plan_index::{PlanIndex, PointName};
use sample_missions::{camera, camera_extension, smallest_extension};
use std::alloc::Global;
use std::test::Fail;

/// An extension that fixes a point of the first, and adds two tokens of the camera.
fn second(alloc: Global) -> Result<Extension, Memory>
    ensures { IfOk result (λ e. length e.tokens ≡ 2) }
{
    let mut extension = smallest_extension(alloc)?;
    extension.fixed.push(Time {
        point: PointId(2),
        at: 20,
    })?;
    Ok(extension)
}

/// The camera mission's plan with the second extension.
fn index(alloc: Global) -> Result<PlanIndex, Memory> {
    let mut index = PlanIndex::new(alloc)?;
    index.extend(&camera_extension(alloc)?)?;
    index.extend(&second(alloc)?)?;
    Ok(index)
}

fn token(sv: u32, place: u32) -> TokenRef {
    TokenRef {
        sv: SvId(sv),
        place,
    }
}

/// Whether the points have their numbers: Z, a horizon, six tokens, a horizon, two tokens.
fn has_numbers(index: &PlanIndex) -> bool {
    index.points() == 11
        && index.horizons() == 2
        && index.horizon(1) == PointId(1)
        && index.horizon(2) == PointId(8)
        && index.horizon(3) == PointId(11)
        && index.start(token(0, 0)) == PointId(0)
        && index.start(token(0, 3)) == PointId(4)
        && index.end(token(0, 3)) == PointId(9)
        && index.end(token(1, 0)) == PointId(5)
        && index.end(token(1, 3)) == PointId(11)
}

/// Whether the points have their names.
fn has_names(index: &PlanIndex) -> bool {
    index.names().len() == 11
        && index.name(PointId(0)) == Some(PointName::Origin)
        && index.name(PointId(8)) == Some(PointName::Horizon(2))
        && index.name(PointId(9)) == Some(PointName::End(token(0, 3)))
        && index.name(PointId(11)) == None
}

/// Whether the timelines have their tokens.
fn has_tokens(index: &PlanIndex) -> bool {
    let shoot = Kind {
        sv: SvId(0),
        value: ValId(1),
    };
    index.tokens().len() == 8
        && index.timeline(SvId(0)).len() == 5
        && index.timeline(SvId(2)).len() == 0
        && index.token(token(0, 4)) == Some(shoot)
        && index.token(token(0, 5)) == None
}

/// Whether one point is fixed, and the others are free.
fn has_fixed(index: &PlanIndex) -> bool {
    index.fixed().len() == 1
        && index.is_fixed(PointId(2))
        && !index.is_fixed(PointId(3))
        && !index.is_fixed(PointId(11))
        && index.free_points() == 10
}

#[test]
fn numbers_the_points_of_a_plan(rt: HostRuntime) -> Result<(), Fail> {
    let alloc = rt.alloc();
    let index = index(alloc)?;
    assert!(rt; has_numbers(&index));
    assert!(rt; has_names(&index));
    assert!(rt; has_tokens(&index));
    assert!(rt; has_fixed(&index));
    Ok(())
}

#[test]
fn knows_the_points_that_devices_tell(rt: HostRuntime) -> Result<(), Fail> {
    let alloc = rt.alloc();
    let index = index(alloc)?;
    let mission = camera(alloc)?;
    assert!(rt; index.is_observed(&mission, PointId(10)));
    assert!(rt; !index.is_observed(&mission, PointId(8)));
    assert!(rt; !index.is_observed(&mission, PointId(4)));
    Ok(())
}
