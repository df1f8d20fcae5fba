ghost use Rattle.std.specs.Prelude.{◌≡◌, ◌^◌, ◌<◌, List, [], flat_map, IfOk};
ghost use Rattle.std.specs.List.{AllZip};
ghost use Rattle.hs_base.specs.declared.plan.Extension.{Extension};
ghost use Rattle.hs_texts.specs.MissionMeaning.{IsNumberOf};
ghost use Rattle.hs_texts.specs.MissionRefusals.{unknown_in};
ghost use Rattle.hs_texts.specs.PlanSpelling.{names_of};
ghost use Rattle.hs_texts.specs.PlanSpelling.{TokenMeans, KindMeans, PointMeans, TimeMeans, SupportMeans, ExtensionMeans, ExtensionsMean, unknown_in_point, unknown_in_time, unknown_in_kind, unknown_in_token, unknown_in_support, unknown_in_body, unknown_in_plan};
ghost use Rattle.plan_text.specs.SoFar.{value_at as value_at_spec};
ghost use Rattle.plan_index.specs.Contents.{contents_of};
ghost use Rattle.plan_text.specs.Naming.{Resolves, point_count};

use crate::written_plan::variable_at;
use hs_base::{
    Copies, Extension, Kind, List, Memory, Mission, Name, Plan, PointId, Support, SvId, Time,
    TokenRef, ValId, Value,
};
use hs_texts::{
    Refusal, WrittenExtension, WrittenKind, WrittenPoint, WrittenSupport, WrittenTime, WrittenToken,
};
use plan_index::PlanIndex;
use std::alloc::Global;

/// Where the first value of this name stands.
fn value_at(values: &[Value], name: &Name) -> Option<usize>
    ensures { result ≡ value_at_spec values.now name.now }
{
    values.iter().position(|value| value.name == *name)
}

/// A place in a list as a number; want of memory comes where there is none for it.
fn number_of(place: usize) -> Result<u32, Memory>
    ensures { IfOk result (λ number. number ≡ place) }
{
    match u32::try_from(place) {
        Ok(number) => Ok(number),
        Err(_) => Err(Memory),
    }
}

/// The variable of this name.
pub fn sv_of(alloc: Global, mission: &Mission, name: &Name) -> Result<SvId, Refusal>
    ensures { Resolves result (unknown_in (names_of mission.now) name.now) (λ sv. IsNumberOf (names_of mission.now) name.now sv.0) }
{
    match variable_at(mission.vars.as_slice(), name) {
        Some(sv) => Ok(SvId(number_of(sv)?)),
        None => Err(Refusal::Unknown {
            name: name.copy(alloc)?,
        }),
    }
}

/// The variable and the value of these names.
fn kind_of(alloc: Global, mission: &Mission, written: &WrittenKind) -> Result<Kind, Refusal>
    ensures { Resolves result (unknown_in_kind mission.now written.now) (KindMeans mission.now written.now) }
{
    let vars = mission.vars.as_slice();
    let Some(sv) = variable_at(vars, &written.sv) else {
        return Err(Refusal::Unknown {
            name: written.sv.copy(alloc)?,
        });
    };
    match value_at(vars[sv].values.as_slice(), &written.value) {
        Some(value) => Ok(Kind {
            sv: SvId(number_of(sv)?),
            value: ValId(number_of(value)?),
        }),
        None => Err(Refusal::Unknown {
            name: written.value.copy(alloc)?,
        }),
    }
}

/// The token of these names.
fn token_of(alloc: Global, mission: &Mission, written: &WrittenToken) -> Result<TokenRef, Refusal>
    ensures { Resolves result (unknown_in_token mission.now written.now) (TokenMeans mission.now written.now) }
{
    Ok(TokenRef {
        sv: sv_of(alloc, mission, &written.sv)?,
        place: written.place,
    })
}

/// The point of a plan by its written name.
pub fn point_of(
    alloc: Global,
    mission: &Mission,
    index: &PlanIndex,
    written: &WrittenPoint,
) -> Result<PointId, Refusal>
    ensures { (es : List Extension) → index.now ≡ contents_of es
        → Resolves result (unknown_in_point mission.now written.now) (λ p. PointMeans mission.now es written.now p.0) }
{
    match written {
        WrittenPoint::Origin => Ok(PointId(0)),
        WrittenPoint::Horizon(k) => Ok(index.horizon(*k)),
        WrittenPoint::End(end) => {
            let token = token_of(alloc, mission, end)?;
            Ok(index.end(token))
        }
    }
}

/// The time of a point of a plan.
fn time_of(
    alloc: Global,
    mission: &Mission,
    index: &PlanIndex,
    written: &WrittenTime,
) -> Result<Time, Refusal>
    ensures { (es : List Extension) → index.now ≡ contents_of es
        → Resolves result (unknown_in_time mission.now written.now) (TimeMeans mission.now es written.now) }
{
    Ok(Time {
        point: point_of(alloc, mission, index, &written.point)?,
        at: written.at,
    })
}

/// The support of these names.
fn support_of(
    alloc: Global,
    mission: &Mission,
    written: &WrittenSupport,
) -> Result<Support, Refusal>
    ensures { Resolves result (unknown_in_support mission.now written.now) (SupportMeans mission.now written.now) }
{
    let token = token_of(alloc, mission, &written.token)?;
    let by = token_of(alloc, mission, &written.by)?;
    Ok(Support {
        token,
        need: written.need,
        by,
    })
}

fn times_of(
    alloc: Global,
    mission: &Mission,
    index: &PlanIndex,
    written: &[WrittenTime],
) -> Result<List<Time>, Refusal>
    ensures { (es : List Extension) → index.now ≡ contents_of es
        → Resolves result (flat_map (unknown_in_time mission.now) written.now) (AllZip (TimeMeans mission.now es) written.now) }
{
    let mut times = List::new(alloc);
    for time in written {
        times.push(time_of(alloc, mission, index, time)?)?;
    }
    Ok(times)
}

fn kinds_of(
    alloc: Global,
    mission: &Mission,
    written: &[WrittenKind],
) -> Result<List<Kind>, Refusal>
    ensures { Resolves result (flat_map (unknown_in_kind mission.now) written.now) (AllZip (KindMeans mission.now) written.now) }
{
    let mut kinds = List::new(alloc);
    for kind in written {
        kinds.push(kind_of(alloc, mission, kind)?)?;
    }
    Ok(kinds)
}

fn supports_of(
    alloc: Global,
    mission: &Mission,
    written: &[WrittenSupport],
) -> Result<List<Support>, Refusal>
    ensures { Resolves result (flat_map (unknown_in_support mission.now) written.now) (AllZip (SupportMeans mission.now) written.now) }
{
    let mut supports = List::new(alloc);
    for support in written {
        supports.push(support_of(alloc, mission, support)?)?;
    }
    Ok(supports)
}

fn tokens_of(
    alloc: Global,
    mission: &Mission,
    written: &[WrittenToken],
) -> Result<List<TokenRef>, Refusal>
    ensures { Resolves result (flat_map (unknown_in_token mission.now) written.now) (AllZip (TokenMeans mission.now) written.now) }
{
    let mut tokens = List::new(alloc);
    for token in written {
        tokens.push(token_of(alloc, mission, token)?)?;
    }
    Ok(tokens)
}

/// The extension of the plan that is indexed.
pub fn extension_of(
    alloc: Global,
    mission: &Mission,
    index: &PlanIndex,
    written: &WrittenExtension,
) -> Result<Extension, Refusal>
    ensures { (es : List Extension) → index.now ≡ contents_of es
        → Resolves result (unknown_in_body mission.now written.now.body) (ExtensionMeans mission.now es written.now) }
{
    let body = &written.body;
    let fixed = times_of(alloc, mission, index, body.fixed.as_slice())?;
    let tokens = kinds_of(alloc, mission, body.tokens.as_slice())?;
    let supports = supports_of(alloc, mission, body.supports.as_slice())?;
    let goals = tokens_of(alloc, mission, body.goals.as_slice())?;
    Ok(Extension {
        base: written.base,
        since: body.since,
        fixed,
        tokens,
        supports,
        goals,
    })
}

/// The plan of these names.
pub fn plan_of(
    alloc: Global,
    mission: &Mission,
    written: &[WrittenExtension],
) -> Result<Plan, Refusal>
    requires { point_count written.now < 2 ^ 32 }
    ensures { Resolves result (unknown_in_plan mission.now written.now) (λ plan. ExtensionsMean mission.now [] written.now plan.extensions) }
{
    let mut index = PlanIndex::new(alloc)?;
    let mut extensions = List::new(alloc);
    for one in written {
        let extension = extension_of(alloc, mission, &index, one)?;
        index.extend(&extension)?;
        extensions.push(extension)?;
    }
    Ok(Plan { extensions })
}
