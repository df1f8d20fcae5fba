ghost use Rattle.std.specs.Prelude.{◌≡◌, [], ◌∷◌, pos, codes, IfOk};
ghost use Rattle.hs_base.specs.declared.limits.TheConstants.{LAST};
ghost use Rattle.hs_base.specs.Missions.{IsMission};
ghost use Rattle.hs_base.specs.Ranges.{range};
ghost use Rattle.base_laws.specs.Samples.{camera, camera_extension, device_value, kind, plain_value, smallest, smallest_extension, token, value_id};

use base_laws::{the_camera_mission_is_one, the_smallest_mission_is_one};
use hs_base::{
    Choice, Extension, Goal, Horizon, Kind, LAST, List, Memory, Mission, Name, Need, Range,
    Relation, Said, Step, Support, SvId, TokenRef, ValId, Value, Var, WordId,
};
use std::alloc::Global;

const WHOLE: Range = Range { low: 0, high: LAST };

fn kind(sv: u32, value: u32) -> Kind
    ensures { result ≡ kind sv value }
{
    Kind {
        sv: SvId(sv),
        value: ValId(value),
    }
}

/// A value that no device ends.
fn value(alloc: Global, name: &[u8], low: i64, high: i64, next: &[ValId]) -> Result<Value, Memory>
    ensures { IfOk result (λ v. v ≡ plain_value name.now (range low high) next.now) }
{
    Ok(Value {
        name: Name::from_bytes(alloc, name)?,
        lasts: Range { low, high },
        by_device: false,
        next: List::from_vec(Vec::from_slice(alloc, next)?),
        script: List::new(alloc),
        answers: List::new(alloc),
    })
}

/// A value that a device ends, which says `done` after so many ticks.
fn device(
    alloc: Global,
    name: &[u8],
    low: i64,
    high: i64,
    next: ValId,
    delay: i64,
) -> Result<Value, Memory>
    ensures { IfOk result (λ v. v ≡ device_value name.now (range low high) (next ∷ []) delay) }
{
    let mut values = List::new(alloc);
    values.push(next)?;
    let mut script = List::new(alloc);
    script.push(Step::Until { word: WordId(0) })?;
    let mut said = List::new(alloc);
    said.push(Said {
        delay,
        word: WordId(0),
    })?;
    let mut answers = List::new(alloc);
    answers.push(said)?;
    Ok(Value {
        name: Name::from_bytes(alloc, name)?,
        lasts: Range { low, high },
        by_device: true,
        next: values,
        script,
        answers,
    })
}

fn camera_values(alloc: Global) -> Result<List<Value>, Memory>
    ensures { IfOk result (λ values. values ≡ plain_value (codes "idle") (range (pos 1) LAST) (value_id 1 ∷ []) ∷ device_value (codes "shoot") (range (pos 3) (pos 5)) (value_id 0 ∷ []) (pos 4) ∷ []) }
{
    let mut values = List::new(alloc);
    values.push(value(alloc, b"idle", 1, LAST, &[ValId(1)])?)?;
    values.push(device(alloc, b"shoot", 3, 5, ValId(0), 4)?)?;
    Ok(values)
}

fn attitude_values(alloc: Global) -> Result<List<Value>, Memory>
    ensures { IfOk result (λ values. values ≡ plain_value (codes "earth") (range (pos 1) LAST) (value_id 1 ∷ []) ∷ device_value (codes "turn") (range (pos 10) (pos 12)) (value_id 2 ∷ []) (pos 11) ∷ plain_value (codes "comet") (range (pos 1) LAST) [] ∷ []) }
{
    let mut values = List::new(alloc);
    values.push(value(alloc, b"earth", 1, LAST, &[ValId(1)])?)?;
    values.push(device(alloc, b"turn", 10, 12, ValId(2), 11)?)?;
    values.push(value(alloc, b"comet", 1, LAST, &[])?)?;
    Ok(values)
}

fn var(alloc: Global, name: &[u8], values: List<Value>) -> Result<Var, Memory>
    ensures { IfOk result (λ v. v ≡ record { name = name.now; values = values; begin = value_id 0 }) }
{
    Ok(Var {
        name: Name::from_bytes(alloc, name)?,
        values,
        begin: ValId(0),
    })
}

fn vars(alloc: Global) -> Result<List<Var>, Memory>
    ensures { IfOk result (λ vars. vars ≡ camera.vars) }
{
    let mut vars = List::new(alloc);
    vars.push(var(alloc, b"camera", camera_values(alloc)?)?)?;
    vars.push(var(alloc, b"attitude", attitude_values(alloc)?)?)?;
    Ok(vars)
}

fn needs(alloc: Global) -> Result<List<Need>, Memory>
    ensures { IfOk result (λ needs. needs ≡ camera.needs) }
{
    let mut either = List::new(alloc);
    either.push(Choice {
        relation: Relation::ContainedBy(WHOLE, WHOLE),
        by: kind(1, 2),
    })?;
    let mut needs = List::new(alloc);
    needs.push(Need {
        of: kind(0, 1),
        either,
    })?;
    Ok(needs)
}

fn horizons(alloc: Global) -> Result<List<Horizon>, Memory>
    ensures { IfOk result (λ horizons. horizons ≡ camera.horizons) }
{
    let mut goals = List::new(alloc);
    goals.push(Goal {
        kind: kind(0, 1),
        start: Range { low: 20, high: 40 },
        stop: WHOLE,
    })?;
    let mut horizons = List::new(alloc);
    horizons.push(Horizon { tick: 100, goals })?;
    Ok(horizons)
}

/// The camera mission: a camera that has to shoot while the attitude is at the comet.
pub fn camera(alloc: Global) -> Result<Mission, Memory>
    ensures camera { IfOk result (λ m. m ≡ camera) }
    ensures mission { IfOk result IsMission }
{
    the_camera_mission_is_one();
    let mut words = List::new(alloc);
    words.push(Name::from_bytes(alloc, b"done")?)?;
    Ok(Mission {
        vars: vars(alloc)?,
        needs: needs(alloc)?,
        horizons: horizons(alloc)?,
        words,
    })
}

fn token(sv: u32, place: u32) -> TokenRef
    ensures { result ≡ token sv place }
{
    TokenRef {
        sv: SvId(sv),
        place,
    }
}

fn camera_tokens(alloc: Global) -> Result<List<Kind>, Memory>
    ensures { IfOk result (λ tokens. tokens ≡ camera_extension.tokens) }
{
    let mut tokens = List::new(alloc);
    tokens.push(kind(0, 0))?;
    tokens.push(kind(0, 1))?;
    tokens.push(kind(0, 0))?;
    tokens.push(kind(1, 0))?;
    tokens.push(kind(1, 1))?;
    tokens.push(kind(1, 2))?;
    Ok(tokens)
}

/// The camera mission's plan, which has one extension: the camera shoots while the attitude is at
/// the comet.
pub fn camera_extension(alloc: Global) -> Result<Extension, Memory>
    ensures { IfOk result (λ e. e ≡ camera_extension) }
{
    let mut supports = List::new(alloc);
    supports.push(Support {
        token: token(0, 1),
        need: 0,
        by: token(1, 2),
    })?;
    let mut goals = List::new(alloc);
    goals.push(token(0, 1))?;
    Ok(Extension {
        base: 0,
        since: 0,
        fixed: List::new(alloc),
        tokens: camera_tokens(alloc)?,
        supports,
        goals,
    })
}

fn smallest_values(alloc: Global) -> Result<List<Value>, Memory>
    ensures { IfOk result (λ values. values ≡ plain_value (codes "p") (range (pos 2) (pos 4)) (value_id 1 ∷ []) ∷ plain_value (codes "q") (range (pos 1) LAST) [] ∷ []) }
{
    let mut values = List::new(alloc);
    values.push(value(alloc, b"p", 2, 4, &[ValId(1)])?)?;
    values.push(value(alloc, b"q", 1, LAST, &[])?)?;
    Ok(values)
}

/// The smallest mission: one variable with two values.
pub fn smallest(alloc: Global) -> Result<Mission, Memory>
    ensures smallest { IfOk result (λ m. m ≡ smallest) }
    ensures mission { IfOk result IsMission }
{
    the_smallest_mission_is_one();
    let mut vars = List::new(alloc);
    vars.push(var(alloc, b"a", smallest_values(alloc)?)?)?;
    let mut horizons = List::new(alloc);
    horizons.push(Horizon {
        tick: 10,
        goals: List::new(alloc),
    })?;
    let mut words = List::new(alloc);
    words.push(Name::from_bytes(alloc, b"done")?)?;
    Ok(Mission {
        vars,
        needs: List::new(alloc),
        horizons,
        words,
    })
}

/// The smallest mission's plan, which has one extension: a token of each value. Its points 0 to 3
/// are Z, the horizon at 10, the end of the first token at 2 to 4, and that of the second, past the
/// horizon.
pub fn smallest_extension(alloc: Global) -> Result<Extension, Memory>
    ensures { IfOk result (λ e. e ≡ smallest_extension) }
{
    let mut tokens = List::new(alloc);
    tokens.push(kind(0, 0))?;
    tokens.push(kind(0, 1))?;
    Ok(Extension {
        base: 0,
        since: 0,
        fixed: List::new(alloc),
        tokens,
        supports: List::new(alloc),
        goals: List::new(alloc),
    })
}
