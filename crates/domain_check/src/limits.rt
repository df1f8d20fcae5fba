ghost use Rattle.std.specs.Prelude.{◌≡◌, ℕ, Bool, Some, None, cond, filter_map, length, nat_le, pos, int_le, ◌&&◌};
ghost use Rattle.std.specs.List.{list_all};
ghost use Rattle.hs_texts.specs.declared.ast.AstHorizon.{AstHorizon as WrittenHorizon};
ghost use Rattle.hs_texts.specs.declared.ast.AstNeed.{AstNeed as WrittenNeed};
ghost use Rattle.hs_texts.specs.declared.ast.AstValue.{AstValue as WrittenValue};
ghost use Rattle.hs_texts.specs.declared.ast.AstVar.{AstVar as WrittenVar};
ghost use Rattle.hs_texts.specs.declared.refusal.Refusal.TheVariants.{Limit};
ghost use Rattle.hs_texts.specs.MissionRefusals.{from_one_to as from_one_to_spec, limits_kept as limits_kept_spec, passed_limits};
ghost use Rattle.domain_check.specs.Checking.{Tells};
ghost use Rattle.domain_check.specs.Tables.{is_short};

use hs_base::{
    ANSWER_CLAUSES, ANSWERS, CHOICES, GOALS, HORIZONS, LAST_HORIZON, NEEDS, SCRIPT_STEPS, VALUES,
    VARIABLES,
};
use hs_texts::{Ast, AstHorizon, AstNeed, AstValue, AstVar, Refusal};

/// Whether there is one, and not more than the most.
fn from_one_to(most: usize, count: usize) -> bool
    ensures { result ≡ from_one_to_spec most count }
{
    1 <= count && count <= most
}

fn has_few_values(vars: &[AstVar]) -> bool
    ensures { result ≡ list_all (λ (var : WrittenVar). from_one_to_spec VALUES (length var.values)) vars.now }
{
    vars.iter().all(|var| from_one_to(VALUES, var.values.len()))
}

fn has_ticks(horizons: &[AstHorizon]) -> bool
    ensures { result ≡ list_all (λ (h : WrittenHorizon). int_le (pos 1) h.tick && int_le h.tick LAST_HORIZON) horizons.now }
{
    horizons.iter().all(|horizon| 1 <= horizon.tick && horizon.tick <= LAST_HORIZON)
}

fn has_few_goals(horizons: &[AstHorizon]) -> bool
    ensures { result ≡ list_all (λ (h : WrittenHorizon). nat_le (length h.goals) GOALS) horizons.now }
{
    horizons.iter().all(|horizon| horizon.goals.len() <= GOALS)
}

fn has_few_steps(values: &[AstValue]) -> bool
    ensures { result ≡ list_all (λ (v : WrittenValue). nat_le (length v.script) SCRIPT_STEPS) values.now }
{
    values
        .iter()
        .all(|value| value.script.len() <= SCRIPT_STEPS)
}

fn has_few_clauses(values: &[AstValue]) -> bool
    ensures { result ≡ list_all (λ (v : WrittenValue). nat_le (length v.answers) ANSWER_CLAUSES) values.now }
{
    values
        .iter()
        .all(|value| value.answers.len() <= ANSWER_CLAUSES)
}

fn has_few_words(value: &AstValue) -> bool
    ensures { result ≡ list_all is_short value.now.answers }
{
    value
        .answers
        .as_slice()
        .iter()
        .all(|said| said.len() <= ANSWERS)
}

fn has_few_answers(values: &[AstValue]) -> bool
    ensures { result ≡ list_all (λ (v : WrittenValue). list_all is_short v.answers) values.now }
{
    values.iter().all(|value| has_few_words(value))
}

fn has_few_choices(needs: &[AstNeed]) -> bool
    ensures { result ≡ list_all (λ (n : WrittenNeed). from_one_to_spec CHOICES (length n.either)) needs.now }
{
    needs
        .iter()
        .all(|need| from_one_to(CHOICES, need.either.len()))
}

fn all_have_few_steps(vars: &[AstVar]) -> bool
    ensures { result ≡ list_all (λ (var : WrittenVar). list_all (λ (v : WrittenValue). nat_le (length v.script) SCRIPT_STEPS) var.values) vars.now }
{
    vars.iter().all(|var| has_few_steps(var.values.as_slice()))
}

fn all_have_few_clauses(vars: &[AstVar]) -> bool
    ensures { result ≡ list_all (λ (var : WrittenVar). list_all (λ (v : WrittenValue). nat_le (length v.answers) ANSWER_CLAUSES) var.values) vars.now }
{
    vars.iter()
        .all(|var| has_few_clauses(var.values.as_slice()))
}

fn all_have_few_answers(vars: &[AstVar]) -> bool
    ensures { result ≡ list_all (λ (var : WrittenVar). list_all (λ (v : WrittenValue). list_all is_short v.answers) var.values) vars.now }
{
    vars.iter()
        .all(|var| has_few_answers(var.values.as_slice()))
}

/// The limits by number, each with whether the mission keeps it.
fn limits_kept(ast: &Ast) -> [(u32, bool); 10]
    ensures { result ≡ limits_kept_spec ast.now }
{
    let vars = ast.vars.as_slice();
    let needs = ast.needs.as_slice();
    let horizons = ast.horizons.as_slice();
    [
        (2, from_one_to(VARIABLES, vars.len())),
        (3, has_few_values(vars)),
        (4, needs.len() <= NEEDS),
        (5, from_one_to(HORIZONS, horizons.len())),
        (6, has_ticks(horizons)),
        (7, has_few_goals(horizons)),
        (8, all_have_few_steps(vars)),
        (9, all_have_few_clauses(vars)),
        (10, all_have_few_answers(vars)),
        (11, has_few_choices(needs)),
    ]
}

fn check_kept(limits: &[(u32, bool)]) -> Result<(), Refusal>
    ensures { Tells Limit (filter_map (λ (l : ℕ × Bool). cond l.1 None (Some l.0)) limits.now) result }
{
    for limit in limits {
        if !limit.1 {
            return Err(Refusal::Limit { which: limit.0 });
        }
    }
    Ok(())
}

/// Refuses the first limit by number that the mission passes.
pub fn check_limits(ast: &Ast) -> Result<(), Refusal>
    ensures { Tells Limit (passed_limits ast.now) result }
{
    check_kept(&limits_kept(ast))
}
