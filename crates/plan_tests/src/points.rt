ghost use Rattle.std.specs.Prelude.{◌≡◌, IfOk};
ghost use Rattle.base_laws.specs.Samples.{smallest_plan};

use hs_base::{Bound, LAST, List, Memory, Plan, PointId};
use sample_missions::{smallest, smallest_extension};
use std::alloc::Global;
use std::test::Fail;
use token_net::{bounds, horizon_point, points};

/// The bounds of the smallest mission's plan: from which point to which, and how much at most.
const BOUNDS: [(u32, u32, i64); 18] = [
    (0, 1, 10),
    (1, 0, -10),
    (0, 1, LAST),
    (1, 0, 0),
    (0, 2, LAST),
    (2, 0, 0),
    (0, 3, LAST),
    (3, 0, 0),
    (0, 2, 4),
    (2, 0, -2),
    (2, 3, LAST),
    (3, 2, -1),
    (1, 0, -1),
    (1, 2, -1),
    (3, 1, -1),
    (1, 0, 0),
    (2, 0, 0),
    (3, 0, 0),
];

/// The smallest mission's plan.
fn plan(alloc: Global) -> Result<Plan, Memory>
    ensures { IfOk result (λ p. p.extensions ≡ smallest_plan) }
{
    let mut extensions = List::new(alloc);
    extensions.push(smallest_extension(alloc)?)?;
    Ok(Plan { extensions })
}

/// Its bounds.
#[tactic(auto, using(crate::proofs::PointLemmas::within_smallest))]
fn listed(alloc: Global, plan: &Plan) -> Result<List<Bound>, Memory>
    requires { plan.now.extensions ≡ smallest_plan }
{
    let mission = smallest(alloc)?;
    bounds(alloc, &mission, plan)
}

fn is_bound(bound: &Bound, from: u32, to: u32, most: i64) -> bool {
    bound.from == PointId(from) && bound.to == PointId(to) && bound.most == most
}

/// Whether just the smallest plan's bounds are listed, in their order.
fn are_bounds(listed: &[Bound]) -> bool {
    for (bound, (from, to, most)) in listed.iter().zip(BOUNDS) {
        if !is_bound(bound, from, to, most) {
            return false;
        }
    }
    listed.len() == BOUNDS.len()
}

#[test]
fn numbers_and_bounds_its_points(rt: HostRuntime) -> Result<(), Fail> {
    let plan = plan(rt.alloc())?;
    let listed = listed(rt.alloc(), &plan)?;
    assert!(rt; are_bounds(listed.as_slice()));
    assert!(rt; points(&plan) == 4);
    assert!(rt; horizon_point(&plan, 1) == PointId(1));
    Ok(())
}
