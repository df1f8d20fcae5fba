ghost use Rattle.std.specs.Prelude.{◌≡◌, ◌<◌, flat_map};
ghost use Rattle.hs_texts.specs.declared.ast.AstHorizon.{AstHorizon as WrittenHorizon};
ghost use Rattle.hs_texts.specs.declared.refusal.Refusal.TheVariants.{Unknown};
ghost use Rattle.hs_texts.specs.MissionMeaning.{value_names};
ghost use Rattle.hs_texts.specs.MissionRefusals.{next_names, begin_names as begin_names_spec, unknown_in, unknown_in_var, unknown_in_kind, kinds_of_need, kinds_of, unknown_names};
ghost use Rattle.domain_check.specs.Checking.{Tells};
ghost use Rattle.domain_check.specs.Tables.{names_in, names_of_uses, kinds_of_choices, kinds_of_goals};

use crate::names::Names;
use crate::tables::Tables;
use hs_base::{Copies, Name};
use hs_texts::{
    Ast, AstChoice, AstGoal, AstHorizon, AstKind, AstNeed, AstValue, AstVar, Refusal, Use,
};
use std::alloc::Global;

fn check_name(alloc: Global, known: &Names, name: &Name) -> Result<(), Refusal>
    ensures { Tells Unknown (unknown_in (names_in known.now) name.now) result }
{
    if known.has(name) {
        return Ok(());
    }
    Err(Refusal::Unknown {
        name: name.copy(alloc)?,
    })
}

fn check_uses(alloc: Global, known: &Names, uses: &[Use]) -> Result<(), Refusal>
    ensures { Tells Unknown (flat_map (unknown_in (names_in known.now)) (names_of_uses uses.now)) result }
{
    for value in uses {
        check_name(alloc, known, &value.name)?;
    }
    Ok(())
}

fn check_values(alloc: Global, known: &Names, values: &[AstValue]) -> Result<(), Refusal>
    ensures { Tells Unknown (flat_map (unknown_in (names_in known.now)) (flat_map next_names values.now)) result }
{
    for value in values {
        check_uses(alloc, known, value.next.as_slice())?;
    }
    Ok(())
}

fn check_begin(alloc: Global, known: &Names, var: &AstVar) -> Result<(), Refusal>
    ensures { Tells Unknown (flat_map (unknown_in (names_in known.now)) (begin_names_spec var.now)) result }
{
    match &var.begin {
        Some(value) => check_name(alloc, known, &value.name),
        None => Ok(()),
    }
}

fn check_var(alloc: Global, known: &Names, var: &AstVar) -> Result<(), Refusal>
    requires { names_in known.now ≡ value_names var.now }
    ensures { Tells Unknown (unknown_in_var var.now) result }
{
    check_values(alloc, known, var.values.as_slice())?;
    check_begin(alloc, known, var)
}

fn check_vars(alloc: Global, tables: &Tables) -> Result<(), Refusal>
    ensures { Tells Unknown (flat_map unknown_in_var tables.now.written.now) result }
{
    let vars = tables.written();
    for i in 0..vars.len() {
        check_var(alloc, tables.values_at(i), &vars[i])?;
    }
    Ok(())
}

fn check_kind(alloc: Global, tables: &Tables, kind: &AstKind) -> Result<(), Refusal>
    ensures { Tells Unknown (unknown_in_kind tables.now.written.now kind.now) result }
{
    match tables.values_of(&kind.sv) {
        Some(known) => check_name(alloc, known, &kind.value.name),
        None => Err(Refusal::Unknown {
            name: kind.sv.copy(alloc)?,
        }),
    }
}

fn check_choices(alloc: Global, tables: &Tables, choices: &[AstChoice]) -> Result<(), Refusal>
    ensures { Tells Unknown (flat_map (unknown_in_kind tables.now.written.now) (kinds_of_choices choices.now)) result }
{
    for choice in choices {
        check_kind(alloc, tables, &choice.by)?;
    }
    Ok(())
}

fn check_need(alloc: Global, tables: &Tables, need: &AstNeed) -> Result<(), Refusal>
    ensures { Tells Unknown (flat_map (unknown_in_kind tables.now.written.now) (kinds_of_need need.now)) result }
{
    check_kind(alloc, tables, &need.of)?;
    check_choices(alloc, tables, need.either.as_slice())
}

fn check_needs(alloc: Global, tables: &Tables, needs: &[AstNeed]) -> Result<(), Refusal>
    ensures { Tells Unknown (flat_map (unknown_in_kind tables.now.written.now) (flat_map kinds_of_need needs.now)) result }
{
    for need in needs {
        check_need(alloc, tables, need)?;
    }
    Ok(())
}

fn check_goals(alloc: Global, tables: &Tables, goals: &[AstGoal]) -> Result<(), Refusal>
    ensures { Tells Unknown (flat_map (unknown_in_kind tables.now.written.now) (kinds_of_goals goals.now)) result }
{
    for goal in goals {
        check_kind(alloc, tables, &goal.kind)?;
    }
    Ok(())
}

fn check_horizons(alloc: Global, tables: &Tables, horizons: &[AstHorizon]) -> Result<(), Refusal>
    ensures { Tells Unknown (flat_map (unknown_in_kind tables.now.written.now)
        (flat_map (λ (h : WrittenHorizon). kinds_of_goals h.goals) horizons.now)) result }
{
    for horizon in horizons {
        check_goals(alloc, tables, horizon.goals.as_slice())?;
    }
    Ok(())
}

fn check_kinds(alloc: Global, tables: &Tables, ast: &Ast) -> Result<(), Refusal>
    ensures { Tells Unknown (flat_map (unknown_in_kind tables.now.written.now) (kinds_of ast.now)) result }
{
    check_needs(alloc, tables, ast.needs.as_slice())?;
    check_horizons(alloc, tables, ast.horizons.as_slice())
}

/// Refuses the first name that is unknown: of a value that may follow or that a variable begins
/// with, and then of a kind in a need or a goal.
pub fn check_names(alloc: Global, tables: &Tables, ast: &Ast) -> Result<(), Refusal>
    requires { tables.now.written.now ≡ ast.now.vars }
    ensures { Tells Unknown (unknown_names ast.now) result }
{
    check_vars(alloc, tables)?;
    check_kinds(alloc, tables, ast)
}
