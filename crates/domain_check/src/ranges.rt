ghost use Rattle.std.specs.Prelude.{◌≡◌, ◌<◌, ◌^◌, [], ◌∷◌, ◌++◌, cond, length, map, flat_map, IfOk, OnOk};
ghost use Rattle.hs_texts.specs.declared.ast.AstChoice.{AstChoice as WrittenChoice};
ghost use Rattle.hs_texts.specs.declared.ast.AstNeed.{AstNeed as WrittenNeed};
ghost use Rattle.hs_texts.specs.declared.ast.AstHorizon.{AstHorizon as WrittenHorizon};
ghost use Rattle.hs_texts.specs.declared.ast.AstValue.{AstValue as WrittenValue};
ghost use Rattle.hs_texts.specs.declared.ast.AstVar.{AstVar as WrittenVar};
ghost use Rattle.hs_texts.specs.declared.refusal.Refusal.TheVariants.{Range as BadRange};
ghost use Rattle.hs_texts.specs.CanonicalText.{is_whole as is_whole_spec};
ghost use Rattle.hs_texts.specs.MissionRefusals.{places, is_exchanged as is_exchanged_spec, is_no_duration as is_no_duration_spec, ranges_of_relation, ranges_of_goal, durations, distances, bad_ranges};
ghost use Rattle.domain_check.specs.Checking.{Tells};

use hs_base::{LAST, List, Memory, Range, Relation};
use hs_texts::{Ast, AstChoice, AstGoal, AstHorizon, AstNeed, AstValue, AstVar, Refusal};
use std::alloc::Global;

/// Whether no tick is in the range.
fn is_exchanged(range: Range) -> bool
    ensures { result ≡ is_exchanged_spec range }
{
    range.high < range.low
}

/// Whether it is no range of durations, which are 1 tick at least.
fn is_no_duration(range: Range) -> bool
    ensures { result ≡ is_no_duration_spec range }
{
    is_exchanged(range) || range.low < 1
}

/// Whether all ticks are in the range.
fn is_whole(range: Range) -> bool
    ensures { result ≡ is_whole_spec range }
{
    range.low == 0 && range.high == LAST
}

fn push_lasts(bad: &mut List<bool>, ranges: &[Range]) -> Result<(), Memory>
    ensures { OnOk result (bad.new ≡ bad.old ++ map is_no_duration_spec ranges.now) }
{
    for range in ranges {
        bad.push(is_no_duration(*range))?;
    }
    Ok(())
}

fn push_values(bad: &mut List<bool>, values: &[AstValue]) -> Result<(), Memory>
    ensures { OnOk result (bad.new ≡ bad.old ++ map is_no_duration_spec (flat_map (λ (v : WrittenValue). v.lasts) values.now)) }
{
    for value in values {
        push_lasts(bad, value.lasts.as_slice())?;
    }
    Ok(())
}

fn push_vars(bad: &mut List<bool>, vars: &[AstVar]) -> Result<(), Memory>
    ensures { OnOk result (bad.new
        ≡ bad.old ++ map is_no_duration_spec (flat_map (λ (var : WrittenVar). flat_map (λ (v : WrittenValue). v.lasts) var.values) vars.now)) }
{
    for var in vars {
        push_values(bad, var.values.as_slice())?;
    }
    Ok(())
}

fn push_distance(bad: &mut List<bool>, range: Range) -> Result<(), Memory>
    ensures { OnOk result (bad.new ≡ bad.old ++ is_exchanged_spec range ∷ []) }
{
    bad.push(is_exchanged(range))
}

fn push_relation(bad: &mut List<bool>, relation: Relation) -> Result<(), Memory>
    ensures { OnOk result (bad.new ≡ bad.old ++ map is_exchanged_spec (ranges_of_relation relation)) }
{
    match relation {
        Relation::Before(range)
        | Relation::After(range)
        | Relation::Starts(range)
        | Relation::Ends(range) => push_distance(bad, range),
        Relation::Contains(start, stop) | Relation::ContainedBy(start, stop) => {
            push_distance(bad, start)?;
            push_distance(bad, stop)
        }
        Relation::Meets | Relation::MetBy | Relation::Equals => Ok(()),
    }
}

fn push_choices(bad: &mut List<bool>, choices: &[AstChoice]) -> Result<(), Memory>
    ensures { OnOk result (bad.new
        ≡ bad.old ++ map is_exchanged_spec (flat_map (λ (c : WrittenChoice). ranges_of_relation c.relation) choices.now)) }
{
    for choice in choices {
        push_relation(bad, choice.relation)?;
    }
    Ok(())
}

fn push_needs(bad: &mut List<bool>, needs: &[AstNeed]) -> Result<(), Memory>
    ensures { OnOk result (bad.new ≡ bad.old ++ map is_exchanged_spec
        (flat_map (λ (n : WrittenNeed). flat_map (λ (c : WrittenChoice). ranges_of_relation c.relation) n.either) needs.now)) }
{
    for need in needs {
        push_choices(bad, need.either.as_slice())?;
    }
    Ok(())
}

/// A range of a goal counts unless it is `[0,inf]`, which the text may leave out.
fn push_goal_range(bad: &mut List<bool>, range: Range) -> Result<(), Memory>
    ensures { OnOk result (bad.new ≡ bad.old ++ map is_exchanged_spec (cond (is_whole_spec range) [] (range ∷ []))) }
{
    if is_whole(range) {
        return Ok(());
    }
    push_distance(bad, range)
}

fn push_goal(bad: &mut List<bool>, goal: &AstGoal) -> Result<(), Memory>
    ensures { OnOk result (bad.new ≡ bad.old ++ map is_exchanged_spec (ranges_of_goal goal.now)) }
{
    push_goal_range(bad, goal.start)?;
    push_goal_range(bad, goal.stop)
}

fn push_goals(bad: &mut List<bool>, goals: &[AstGoal]) -> Result<(), Memory>
    ensures { OnOk result (bad.new ≡ bad.old ++ map is_exchanged_spec (flat_map ranges_of_goal goals.now)) }
{
    for goal in goals {
        push_goal(bad, goal)?;
    }
    Ok(())
}

fn push_horizons(bad: &mut List<bool>, horizons: &[AstHorizon]) -> Result<(), Memory>
    ensures { OnOk result (bad.new ≡ bad.old ++ map is_exchanged_spec (flat_map (λ (h : WrittenHorizon). flat_map ranges_of_goal h.goals) horizons.now)) }
{
    for horizon in horizons {
        push_goals(bad, horizon.goals.as_slice())?;
    }
    Ok(())
}

/// Of each range in text order, whether it breaks the rule.
fn bad_flags(alloc: Global, ast: &Ast) -> Result<List<bool>, Memory>
    ensures { IfOk result (λ flags. flags ≡ map is_no_duration_spec (durations ast.now) ++ map is_exchanged_spec (distances ast.now)) }
{
    let mut bad = List::new(alloc);
    push_vars(&mut bad, ast.vars.as_slice())?;
    push_needs(&mut bad, ast.needs.as_slice())?;
    push_horizons(&mut bad, ast.horizons.as_slice())?;
    Ok(bad)
}

/// Refuses the place of the first flag that is set.
fn check_flags(bad: &[bool]) -> Result<(), Refusal>
    requires { length bad.now < 2 ^ 32 }
    ensures { Tells BadRange (places (λ bad. bad) bad.now) result }
{
    for i in 0..bad.len() {
        if bad[i] {
            return Err(Refusal::Range { item: i as u32 });
        }
    }
    Ok(())
}

/// Refuses the first range whose limits are exchanged, or whose lower one is below 1 where it is of
/// durations. More than 2^32 - 1 ranges, which no text has, are answered as want of memory.
pub fn check_ranges(alloc: Global, ast: &Ast) -> Result<(), Refusal>
    ensures { Tells BadRange (bad_ranges ast.now) result }
{
    let bad = bad_flags(alloc, ast)?;
    if bad.len() > u32::MAX as usize {
        return Err(Refusal::Memory);
    }
    check_flags(bad.as_slice())
}
