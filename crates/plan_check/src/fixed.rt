ghost use Rattle.std.specs.Prelude.{◌≡◌, ◌<◌, ◌^◌, ◌↔◌, length, IsTrue, OnOk, IfErr};
ghost use Rattle.hs_base.specs.Points.{count};
ghost use Rattle.hs_base.specs.Checked.{KeepsFixed, fixed, KeepsBefore};
ghost use Rattle.hs_base.specs.Faults.{IsFault};
ghost use Rattle.plan_index.specs.Contents.{contents_of};
ghost use Rattle.plan_check.specs.Fixing.{MayFix};

use hs_base::{Extension, Fault, LAST, Mission, Plan, Time};
use plan_index::PlanIndex;

/// Whether a point behind `last` may be fixed at its time.
fn may_fix(index: &PlanIndex, last: u32, extension: &Extension, time: Time) -> bool
    ensures { IsTrue result ↔ MayFix index.now last extension.now.since time }
{
    if time.point.0 <= last || time.point.0 as usize >= index.points() {
        return false;
    }
    if index.is_fixed(time.point) {
        return false;
    }
    0 <= time.at && time.at <= extension.since
}

/// Whether the extension fixes points of the plan in order, each once, up to its `since`.
pub(crate) fn check_fixed(
    mission: &Mission,
    plan: &Plan,
    index: &PlanIndex,
    extension: &Extension,
) -> Result<(), Fault>
    requires index { index.now ≡ contents_of plan.now.extensions }
    requires small { count plan.now.extensions < 2 ^ 32 }
    requires before { KeepsBefore mission.now plan.now.extensions extension.now fixed }
    ensures kept { OnOk result (KeepsFixed plan.now.extensions extension.now) }
    ensures fault { IfErr result (IsFault mission.now plan.now.extensions extension.now) }
{
    let fixed = extension.fixed.as_slice();
    let mut last = 0;
    for (i, time) in fixed.iter().enumerate() {
        if !may_fix(index, last, extension, *time) {
            return Err(Fault::Fixed { number: i as u32 });
        }
        last = time.point.0;
    }
    if extension.since < 0 || extension.since > LAST {
        return Err(Fault::Fixed {
            number: fixed.len() as u32,
        });
    }
    Ok(())
}
