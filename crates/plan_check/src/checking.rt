ghost use Rattle.std.specs.Prelude.{◌≡◌, ◌≢◌, IfOk, IfErr};
ghost use Rattle.hs_base.specs.declared.fault.Fault.TheVariants.{Memory as NoMemoryLeft};
ghost use Rattle.hs_base.specs.Checked.{joined, Checked};
ghost use Rattle.hs_base.specs.Faults.{IsFault};
ghost use Rattle.plan_check.specs.Planned.{Joins};

use crate::{CheckedPlan, Checker};
use hs_base::{Copies, Extension, Fault};
use std::alloc::Global;

/// The plan with the extension, exactly where it is a checked one, or else the first fault, in the
/// order of the rules. Which cycle is named is left free. On a refusal the extension is dropped.
pub fn check(alloc: Global, base: &CheckedPlan, extension: Extension) -> Result<CheckedPlan, Fault>
    ensures joins { IfOk result (Joins base.now extension) }
    ensures checked { IfOk result (λ c. Checked c.mission c.plan.extensions) }
    ensures fault { IfErr result (IsFault base.now.mission base.now.plan.extensions extension) }
    ensures refused { IfErr result (λ f. f ≢ NoMemoryLeft → Checked base.now.mission (joined base.now.plan.extensions extension) → ⊥) }
{
    let checker = Checker::of(alloc, base.copy(alloc)?)?;
    let checker = checker.check(extension)?;
    Ok(checker.into_plan())
}
