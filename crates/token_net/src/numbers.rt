ghost use Rattle.std.specs.Prelude.{◌≡◌, ◌<◌, ◌≤◌, ◌^◌, length};
ghost use Rattle.hs_base.specs.Points.{count, hor};

use hs_base::{Extension, Plan, PointId};

/// The number of points of a plan: Z, a horizon point for each extension, and the end of each
/// token.
pub fn points(plan: &Plan) -> u32
    requires { count plan.now.extensions < 2 ^ 32 }
    ensures { result ≡ count plan.now.extensions }
{
    points_of_all(plan.extensions.as_slice())
}

/// The number of points of so many extensions.
#[tactic(auto, using(crate::proofs::NumberLemmas::count_more, crate::proofs::NumberLemmas::room))]
fn points_of_all(extensions: &[Extension]) -> u32
    requires { count extensions.now < 2 ^ 32 }
    ensures { result ≡ count extensions.now }
{
    let mut points = 1;
    for extension in extensions {
        points += 1 + extension.tokens.len() as u32;
    }
    points
}

/// The point of horizon `k`, counted from 1.
pub fn horizon_point(plan: &Plan, k: u32) -> PointId
    requires small { count plan.now.extensions < 2 ^ 32 }
    requires first { 1 ≤ k }
    requires last { k ≤ length plan.now.extensions }
    ensures { result.0 ≡ hor plan.now.extensions k }
{
    let before = k as usize - 1;
    PointId(points_of_all(&plan.extensions.as_slice()[..before]))
}
