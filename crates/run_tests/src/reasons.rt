ghost use Rattle.std.specs.Prelude.{◌≡◌, ◌≢◌, ◌<◌, ◌^◌, [], ◌∷◌, IfOk};
ghost use Rattle.base_laws.specs.Samples.{camera_extension};
ghost use Rattle.hs_base.specs.Points.{count};
ghost use Rattle.stn_distance.specs.Ranges.{IsInRange};

use hs_base::{Bound, Fault, Memory, PointId};
use journal_text::write_why;
use plan_check::{CheckedPlan, check, reason};
use sample_missions::{camera, camera_extension};
use std::alloc::Global;
use std::test::Fail;
use stn_distance::Why;

/// The camera mission with its plan.
fn planned(alloc: Global) -> Result<CheckedPlan, Fault>
    ensures { IfOk result (λ p. p.plan.extensions ≡ camera_extension ∷ []) }
{
    let extension = camera_extension(alloc)?;
    let base = CheckedPlan::none(alloc, camera(alloc)?)?;
    check(alloc, &base, extension)
}

/// Whether these lines tell the bounds of the plan that force this one.
fn is_why(alloc: Global, plan: &CheckedPlan, bound: Bound, lines: &[u8]) -> Result<bool, Memory>
    requires few { count plan.now.plan.extensions < 2 ^ 32 }
    requires bound { IsInRange (count plan.now.plan.extensions) bound }
    requires apart { bound.from ≢ bound.to }
{
    let Why::Chain(chain) = reason(alloc, plan, bound)? else {
        return Ok(false);
    };
    let text = write_why(alloc, plan.mission(), plan.plan(), chain.as_slice())?;
    Ok(text.as_bytes() == lines)
}

/// The bound between two points, by their numbers.
macro_rules! bound {
    ($from:expr, $to:expr, $most:expr) => {
        Bound {
            from: PointId($from),
            to: PointId($to),
            most: $most,
        }
    };
}

/// Whether the reasons of three bounds are told: the camera shoots 3 to 5 ticks, not before 20.
fn are_told(alloc: Global) -> Result<bool, Fault> {
    let plan = planned(alloc)?;
    let least = is_why(
        alloc,
        &plan,
        bound!(3, 2, -3),
        b"why camera 1 to camera 0 most -3\n",
    )?;
    let most = is_why(
        alloc,
        &plan,
        bound!(2, 3, 5),
        b"why camera 0 to camera 1 most 5\n",
    )?;
    let after = is_why(
        alloc,
        &plan,
        bound!(3, 0, -23),
        b"why camera 1 to camera 0 most -3\nwhy camera 0 to Z most -20\n",
    )?;
    Ok(least && most && after)
}

#[test]
fn tells_the_bounds_that_force_another(rt: HostRuntime) -> Result<(), Fail> {
    assert!(rt; matches!(are_told(rt.alloc()), Ok(true)));
    Ok(())
}
