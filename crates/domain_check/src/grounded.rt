ghost use Rattle.std.specs.Prelude.{◌≡◌, map, IfOk};
ghost use Rattle.domain_check.specs.Numbering.{var_of as var_of_spec, choice_of as choice_of_spec, need_of as need_of_spec, goal_of as goal_of_spec, horizon_of as horizon_of_spec, mission_of};
ghost use Rattle.domain_check.specs.Tables.{names_in};

use crate::names::Names;
use crate::tables::Tables;
use crate::values::var_of;
use crate::words::words_of;
use hs_base::{Choice, Goal, Horizon, List, Memory, Mission, Name, Need, Var};
use hs_texts::{Ast, AstChoice, AstGoal, AstHorizon, AstNeed};
use std::alloc::Global;

fn vars_of(alloc: Global, words: &Names, tables: &Tables) -> Result<List<Var>, Memory>
    ensures { IfOk result (λ made. made ≡ map (var_of_spec (names_in words.now)) tables.now.written.now) }
{
    let written = tables.written();
    let mut made = List::new(alloc);
    for i in 0..written.len() {
        made.push(var_of(alloc, words, tables.values_at(i), &written[i])?)?;
    }
    Ok(made)
}

fn choices_of(alloc: Global, tables: &Tables, choices: &[AstChoice]) -> Result<List<Choice>, Memory>
    ensures { IfOk result (λ made. made ≡ map (choice_of_spec tables.now.written.now) choices.now) }
{
    let mut made = List::new(alloc);
    for choice in choices {
        made.push(Choice {
            relation: choice.relation,
            by: tables.kind(&choice.by),
        })?;
    }
    Ok(made)
}

fn needs_of(alloc: Global, tables: &Tables, needs: &[AstNeed]) -> Result<List<Need>, Memory>
    ensures { IfOk result (λ made. made ≡ map (need_of_spec tables.now.written.now) needs.now) }
{
    let mut made = List::new(alloc);
    for need in needs {
        made.push(Need {
            of: tables.kind(&need.of),
            either: choices_of(alloc, tables, need.either.as_slice())?,
        })?;
    }
    Ok(made)
}

fn goals_of(alloc: Global, tables: &Tables, goals: &[AstGoal]) -> Result<List<Goal>, Memory>
    ensures { IfOk result (λ made. made ≡ map (goal_of_spec tables.now.written.now) goals.now) }
{
    let mut made = List::new(alloc);
    for goal in goals {
        made.push(Goal {
            kind: tables.kind(&goal.kind),
            start: goal.start,
            stop: goal.stop,
        })?;
    }
    Ok(made)
}

fn horizons_of(
    alloc: Global,
    tables: &Tables,
    horizons: &[AstHorizon],
) -> Result<List<Horizon>, Memory>
    ensures { IfOk result (λ made. made ≡ map (horizon_of_spec tables.now.written.now) horizons.now) }
{
    let mut made = List::new(alloc);
    for horizon in horizons {
        made.push(Horizon {
            tick: horizon.tick,
            goals: goals_of(alloc, tables, horizon.goals.as_slice())?,
        })?;
    }
    Ok(made)
}

/// The mission with each name replaced by its number.
pub fn grounded(alloc: Global, tables: &Tables, ast: &Ast) -> Result<Mission, Memory>
    requires { tables.now.written.now ≡ ast.now.vars }
    ensures { IfOk result (λ mission. mission ≡ mission_of ast.now) }
{
    let done = Name::from_bytes(alloc, b"done")?;
    let words = words_of(alloc, &done, ast)?;
    Ok(Mission {
        vars: vars_of(alloc, &words, tables)?,
        needs: needs_of(alloc, tables, ast.needs.as_slice())?,
        horizons: horizons_of(alloc, tables, ast.horizons.as_slice())?,
        words: words.copies(alloc)?,
    })
}
