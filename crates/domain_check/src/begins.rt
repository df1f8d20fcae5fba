ghost use Rattle.std.specs.Prelude.{filter};
ghost use Rattle.hs_texts.specs.declared.refusal.Refusal.TheVariants.{NoBegin};
ghost use Rattle.hs_texts.specs.MissionMeaning.{var_names};
ghost use Rattle.hs_texts.specs.MissionRefusals.{lacks_begin};
ghost use Rattle.domain_check.specs.Checking.{Tells};

use hs_base::Copies;
use hs_texts::{AstVar, Refusal};
use std::alloc::Global;

/// Refuses the first variable that has no value to begin with.
pub fn check_begins(alloc: Global, vars: &[AstVar]) -> Result<(), Refusal>
    ensures { Tells NoBegin (var_names (filter lacks_begin vars.now)) result }
{
    for var in vars {
        if var.begin.is_none() {
            return Err(Refusal::NoBegin {
                name: var.name.copy(alloc)?,
            });
        }
    }
    Ok(())
}
