ghost use Rattle.std.specs.Prelude.{◌≡◌, ◌≤◌, ◌<◌, [], ◌∷◌, ◌++◌, pos, map, codes, IfOk, OnOk};
ghost use Rattle.std.specs.List.{range_with_len};
ghost use Rattle.hs_base.specs.declared.limits.TheConstants.{LAST};
ghost use Rattle.hs_base.specs.Missions.{IsMission};
ghost use Rattle.hs_base.specs.Ranges.{range};
ghost use Rattle.base_laws.specs.Samples.{device_value, kind, plain_value, value_id};
ghost use Rattle.drill_mission.specs.Drill.{drawn_horizon, drill_horizon, drill_mission, drill_vars, switch_values, variable, variable_name, work_need, worker, worker_values};
ghost use Rattle.drill_mission.specs.Words.{after_word, draws, next_word};

use crate::Draws;
use hs_base::{
    Choice, Goal, Horizon, Kind, LAST, List, Memory, Mission, Name, Need, Range, Relation, Said,
    Step, SvId, ValId, Value, Var, WordId,
};
use std::alloc::Global;

/// The variables that work, numbered from 1.
const WORKERS: u32 = 7;

/// The ticks from one horizon to the next.
const SPACING: u32 = 50;

const WHOLE: Range = Range { low: 0, high: LAST };

fn kind(sv: u32, value: u32) -> Kind
    ensures { result ≡ kind sv value }
{
    Kind {
        sv: SvId(sv),
        value: ValId(value),
    }
}

/// A value that no device ends, and the one that follows it.
fn plain(alloc: Global, name: &[u8], next: ValId) -> Result<Value, Memory>
    ensures { IfOk result (λ v. v ≡ plain_value name.now (range (pos 1) LAST) (next ∷ [])) }
{
    let mut values = List::new(alloc);
    values.push(next)?;
    Ok(Value {
        name: Name::from_bytes(alloc, name)?,
        lasts: Range { low: 1, high: LAST },
        by_device: false,
        next: values,
        script: List::new(alloc),
        answers: List::new(alloc),
    })
}

/// The work, which the device ends after 3 ticks.
fn work(alloc: Global) -> Result<Value, Memory>
    ensures { IfOk result (λ v. v ≡ device_value (codes "work") (range (pos 2) (pos 4)) (value_id 0 ∷ []) (pos 3)) }
{
    let mut next = List::new(alloc);
    next.push(ValId(0))?;
    let mut script = List::new(alloc);
    script.push(Step::Until { word: WordId(0) })?;
    let mut said = List::new(alloc);
    said.push(Said {
        delay: 3,
        word: WordId(0),
    })?;
    let mut answers = List::new(alloc);
    answers.push(said)?;
    Ok(Value {
        name: Name::from_bytes(alloc, b"work")?,
        lasts: Range { low: 2, high: 4 },
        by_device: true,
        next,
        script,
        answers,
    })
}

fn off_and_on(alloc: Global) -> Result<List<Value>, Memory>
    ensures { IfOk result (λ values. values ≡ switch_values) }
{
    let mut values = List::new(alloc);
    values.push(plain(alloc, b"off", ValId(1))?)?;
    values.push(plain(alloc, b"on", ValId(0))?)?;
    Ok(values)
}

fn rest_and_work(alloc: Global) -> Result<List<Value>, Memory>
    ensures { IfOk result (λ values. values ≡ worker_values) }
{
    let mut values = List::new(alloc);
    values.push(plain(alloc, b"rest", ValId(1))?)?;
    values.push(work(alloc)?)?;
    Ok(values)
}

/// A variable of that number, which begins with the first of its values.
fn variable(alloc: Global, number: u32, values: List<Value>) -> Result<Var, Memory>
    requires { number ≤ 7 }
    ensures { IfOk result (λ v. v ≡ variable number values) }
{
    let name = [b'v', b'0' + number as u8];
    Ok(Var {
        name: Name::from_bytes(alloc, &name)?,
        values,
        begin: ValId(0),
    })
}

fn worker(alloc: Global, number: u32) -> Result<Var, Memory>
    requires { number ≤ 7 }
    ensures { IfOk result (λ v. v ≡ worker number) }
{
    variable(alloc, number, rest_and_work(alloc)?)
}

fn switch(alloc: Global) -> Result<Var, Memory>
    ensures { IfOk result (λ v. v ≡ variable 0 switch_values) }
{
    variable(alloc, 0, off_and_on(alloc)?)
}

/// Puts the variables that work at the end.
fn push_workers(alloc: Global, vars: &mut List<Var>) -> Result<(), Memory>
    ensures { OnOk result (vars.new ≡ vars.old ++ map worker (range_with_len 1 7)) }
{
    for done in 0..WORKERS {
        vars.push(worker(alloc, done + 1)?)?;
    }
    Ok(())
}

fn vars(alloc: Global) -> Result<List<Var>, Memory>
    ensures { IfOk result (λ vars. vars ≡ drill_vars) }
{
    let mut vars = List::new(alloc);
    vars.push(switch(alloc)?)?;
    push_workers(alloc, &mut vars)?;
    Ok(vars)
}

/// What a variable's work needs: that variable 0 is on.
fn need(alloc: Global, number: u32) -> Result<Need, Memory>
    ensures { IfOk result (λ n. n ≡ work_need number) }
{
    let mut either = List::new(alloc);
    either.push(Choice {
        relation: Relation::ContainedBy(WHOLE, WHOLE),
        by: kind(0, 1),
    })?;
    Ok(Need {
        of: kind(number, 1),
        either,
    })
}

fn needs(alloc: Global) -> Result<List<Need>, Memory>
    ensures { IfOk result (λ needs. needs ≡ map work_need (range_with_len 1 7)) }
{
    let mut needs = List::new(alloc);
    for done in 0..WORKERS {
        needs.push(need(alloc, done + 1)?)?;
    }
    Ok(needs)
}

/// The horizon after so many others, with the goal that the next two words draw.
fn horizon(alloc: Global, before: u32, draws: &mut Draws) -> Result<Horizon, Memory>
    requires { before < 1000 }
    ensures horizon { IfOk result (λ h. h ≡ drawn_horizon before (next_word draws.old) (next_word (after_word draws.old))) }
    ensures after { draws.new ≡ after_word (after_word draws.old) }
{
    let begin = SPACING * before;
    let number = 1 + draws.below(WORKERS);
    let slack = draws.below(20);
    let mut goals = List::new(alloc);
    goals.push(Goal {
        kind: kind(number, 1),
        start: Range {
            low: i64::from(begin + 10),
            high: i64::from(begin + 20 + slack),
        },
        stop: WHOLE,
    })?;
    Ok(Horizon {
        tick: i64::from(SPACING * (before + 1)),
        goals,
    })
}

fn horizons(alloc: Global, size: u32, seed: u64) -> Result<List<Horizon>, Memory>
    requires { size ≤ 1000 }
    ensures { IfOk result (λ horizons. horizons ≡ map (drill_horizon seed) (range_with_len 0 size)) }
{
    let mut draws = Draws::begin(seed);
    let mut horizons = List::new(alloc);
    for before in 0..size {
        horizons.push(horizon(alloc, before, &mut draws)?)?;
    }
    Ok(horizons)
}

/// The drill of a size, which has so many horizons, 50 ticks apart: seven variables that rest and
/// work, whose work needs that variable 0 is on, and in each horizon one goal, drawn from the seed.
pub fn drill(alloc: Global, size: u32, seed: u64) -> Result<Mission, Memory>
    requires { (1 ≤ size) × (size ≤ 1000) }
    ensures drill { IfOk result (λ m. m ≡ drill_mission size seed) }
    ensures mission { IfOk result IsMission }
{
    let mut words = List::new(alloc);
    words.push(Name::from_bytes(alloc, b"done")?)?;
    Ok(Mission {
        vars: vars(alloc)?,
        needs: needs(alloc)?,
        horizons: horizons(alloc, size, seed)?,
        words,
    })
}
