ghost use Rattle.std.specs.Prelude.{◌≡◌, ◌<◌, ℕ, ℤ, IfOk, Some, map};
ghost use Rattle.hs_base.specs.Schedule.{numbers_from};
ghost use Rattle.hs_base.specs.Fits.{EachOnce, time_at};

use hs_base::{Memory, Time};
use std::alloc::Global;

/// The time of each of `count` points, where it is listed.
pub fn times_by_point(
    alloc: Global,
    count: usize,
    times: &[Time],
) -> Result<Vec<Option<i64>>, Memory>
    requires once { EachOnce times.now }
    requires within { (x : ℕ) (t : ℤ) → time_at times.now x ≡ Some t → x < count }
    ensures { IfOk result (λ by. by.items ≡ map (time_at times.now) (numbers_from 0 count)) }
{
    let mut by_point = vec![in alloc; None; count]?;
    for time in times {
        by_point[time.point.0 as usize] = Some(time.at);
    }
    Ok(by_point)
}
