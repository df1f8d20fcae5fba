ghost use Rattle.std.specs.Prelude.{IfOk};
ghost use Rattle.hs_base.specs.Missions.{IsMission};

use hs_base::{
    Extension, Fault, Kind, List, Memory, Mission, PointId, Support, SvId, Time, TokenRef, ValId,
};
use plan_check::{CheckedPlan, check};
use sample_missions::{camera, camera_extension};
use std::alloc::Global;
use std::test::Fail;

/// The camera mission: its contract says no more than that it is one.
pub(crate) fn mission(alloc: Global) -> Result<Mission, Memory>
    ensures { IfOk result IsMission }
{
    camera(alloc)
}

/// Its right extension, of which each test changes something.
fn right(alloc: Global) -> Result<Extension, Memory> {
    camera_extension(alloc)
}

/// The camera mission with a plan of that extension.
fn checked(alloc: Global, extension: Extension) -> Result<CheckedPlan, Fault> {
    let base = CheckedPlan::none(alloc, mission(alloc)?)?;
    check(alloc, &base, extension)
}

#[test]
fn checks_a_plan(rt: HostRuntime) -> Result<(), Fail> {
    let extension = right(rt.alloc())?;
    assert!(rt; checked(rt.alloc(), extension).is_ok());
    Ok(())
}

/// Whether the extension has that fault.
fn has(alloc: Global, extension: Extension, fault: &Fault) -> bool {
    match checked(alloc, extension) {
        Ok(_) => false,
        Err(given) => given == *fault,
    }
}

fn token(sv: u32, place: u32) -> TokenRef {
    TokenRef {
        sv: SvId(sv),
        place,
    }
}

/// So many tokens of a camera that is idle.
fn idle(alloc: Global, count: usize) -> Result<List<Kind>, Memory> {
    let idle = Kind {
        sv: SvId(0),
        value: ValId(0),
    };
    let mut tokens = List::new(alloc);
    for _ in 0..count {
        tokens.push(idle)?;
    }
    Ok(tokens)
}

#[test]
fn names_the_limit(rt: HostRuntime) -> Result<(), Fail> {
    let mut many = right(rt.alloc())?;
    many.tokens = idle(rt.alloc(), 129)?;
    let limit = Fault::Limit {
        points: 131,
        tokens: 129,
    };
    assert!(rt; has(rt.alloc(), many, &limit));
    Ok(())
}

#[test]
fn names_the_base(rt: HostRuntime) -> Result<(), Fail> {
    let mut second = right(rt.alloc())?;
    second.base = 1;
    let base = Fault::Base {
        given: 1,
        current: 0,
    };
    assert!(rt; has(rt.alloc(), second, &base));
    Ok(())
}

#[test]
fn names_the_token_out_of_order(rt: HostRuntime) -> Result<(), Fail> {
    let mut idling = right(rt.alloc())?;
    idling.tokens = idle(rt.alloc(), 2)?;
    let order = Fault::Order {
        sv: SvId(0),
        place: 1,
    };
    assert!(rt; has(rt.alloc(), idling, &order));
    Ok(())
}

#[test]
fn names_the_fixed_point(rt: HostRuntime) -> Result<(), Fail> {
    let mut fixing = right(rt.alloc())?;
    fixing.fixed.push(Time {
        point: PointId(1),
        at: 0,
    })?;
    assert!(rt; has(rt.alloc(), fixing, &Fault::Fixed { number: 0 }));
    Ok(())
}

#[test]
fn names_the_support(rt: HostRuntime) -> Result<(), Fail> {
    let mut turning = right(rt.alloc())?;
    turning.supports = List::new(rt.alloc());
    turning.supports.push(Support {
        token: token(0, 1),
        need: 0,
        by: token(1, 1),
    })?;
    assert!(rt; has(rt.alloc(), turning, &Fault::WrongSupport { number: 0 }));
    Ok(())
}

#[test]
fn names_the_need(rt: HostRuntime) -> Result<(), Fail> {
    let mut lacking = right(rt.alloc())?;
    lacking.supports = List::new(rt.alloc());
    let unsupported = Fault::Unsupported {
        sv: SvId(0),
        place: 1,
        need: 0,
    };
    assert!(rt; has(rt.alloc(), lacking, &unsupported));
    Ok(())
}

#[test]
fn names_the_goal(rt: HostRuntime) -> Result<(), Fail> {
    let mut twice = right(rt.alloc())?;
    twice.goals.push(token(0, 1))?;
    assert!(rt; has(rt.alloc(), twice, &Fault::Goal { number: 1 }));
    Ok(())
}

/// Whether a cycle of bounds is found in the plan of that extension.
fn has_cycle(alloc: Global, extension: Extension) -> bool {
    match checked(alloc, extension) {
        Err(Fault::Cycle(cycle)) => !cycle.is_empty(),
        _ => false,
    }
}

#[test]
fn finds_a_cycle(rt: HostRuntime) -> Result<(), Fail> {
    let mut late = right(rt.alloc())?;
    late.since = 41;
    assert!(rt; has_cycle(rt.alloc(), late));
    Ok(())
}
