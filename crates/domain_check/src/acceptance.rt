ghost use Rattle.std.specs.Prelude.{◌≡◌, [], MatchResult, IfOk, IfErr};
ghost use Rattle.hs_base.specs.declared.mission.Mission.{Mission as Numbered};
ghost use Rattle.hs_texts.specs.MissionMeaning.{Means};
ghost use Rattle.hs_texts.specs.MissionRefusals.{refusals};
ghost use Rattle.hs_texts.specs.MissionSpelling.{IsMissionRefusal};
ghost use Rattle.text_laws.specs.Refused.{OrMemory};
ghost use Rattle.domain_check.specs.Rules.{KeepsRules, IsBroken};
ghost use Rattle.text_laws.specs.Writable.{IsWritable};

use crate::begins::check_begins;
use crate::grounded::grounded;
use crate::horizons::check_horizons;
use crate::limits::check_limits;
use crate::needs::{check_choices, check_variables};
use crate::ranges::check_ranges;
use crate::tables::Tables;
use crate::unknown::check_names;
use hs_base::Mission;
use hs_texts::{Ast, Refusal};
use std::alloc::Global;

/// The names of a mission that keeps all rules.
fn checked<'a>(alloc: Global, ast: &'a Ast) -> Result<Tables<'a>, Refusal>
    ensures { MatchResult result
        (λ tables. KeepsRules ast.now × (tables.written.now ≡ ast.now.vars))
        (IsBroken ast.now) }
{
    let tables = Tables::new(alloc, ast.vars.as_slice())?;
    check_names(alloc, &tables, ast)?;
    check_ranges(alloc, ast)?;
    check_limits(ast)?;
    check_begins(alloc, ast.vars.as_slice())?;
    check_horizons(ast.horizons.as_slice())?;
    check_variables(ast.needs.as_slice())?;
    check_choices(ast.needs.as_slice())?;
    Ok(tables)
}

/// The mission that a text of version 1 or 2 means, where no rule is broken. Otherwise the first
/// refusal: `Twice`, `Unknown`, `Range`, `Limit`, `NoBegin`, `Horizons`, `SameVar` and `SameBy` come
/// in this order, and those of one kind in the order of the text, limits by number.
pub fn accept(alloc: Global, ast: &Ast) -> Result<Mission, Refusal>
    // A mission is given where no rule is broken; it is what is meant, if a text can spell the Ast.
    ensures kept { IfOk result (λ mission. refusals ast.now ≡ []) }
    ensures meant { IsWritable ast.now → IfOk result (Means ast.now) }

    // A refusal is the first of all, and then no mission is meant. Memory may run out at any time.
    ensures refused { IfErr result (OrMemory (IsMissionRefusal ast.now)) }
    ensures not_meant { IfErr result (OrMemory (λ r. (m : Numbered) → Means ast.now m → ⊥)) }
{
    let tables = checked(alloc, ast)?;
    Ok(grounded(alloc, &tables, ast)?)
}
