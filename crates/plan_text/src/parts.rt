ghost use Rattle.std.specs.Prelude.{◌≡◌, ◌++◌, OnOk};
ghost use Rattle.std.specs.Fmt.{decimal, signed_decimal};
ghost use Rattle.hs_texts.specs.Written.{variable_name, value_name, spelled_point, point_in, token_text, bound_in};
ghost use Rattle.plan_index.specs.Contents.{extended};
ghost use Rattle.plan_index.specs.Named.{named};

use hs_base::{Bound, Extension, Kind, Memory, Mission, PointId, SvId, TokenRef};
use hs_texts::Text;
use plan_index::{PlanIndex, PointName};

/// Puts a number at the end, by its decimal digits.
pub fn push_number(text: &mut Text, number: u64) -> Result<(), Memory>
    ensures { OnOk result (text.new ≡ text.old ++ decimal number) }
{
    if number >= 10 {
        push_number(text, number / 10)?;
    }
    text.push_bytes(&[b'0' + (number % 10) as u8])
}

/// Puts a number at the end, with a `-` before it where it is below 0.
pub fn push_signed(text: &mut Text, number: i64) -> Result<(), Memory>
    ensures { OnOk result (text.new ≡ text.old ++ signed_decimal number) }
{
    if number < 0 {
        text.push_bytes(b"-")?;
    }
    push_number(text, number.unsigned_abs())
}

/// Puts the name of a variable at the end; nothing where the mission doesn't have it.
pub fn push_variable(text: &mut Text, mission: &Mission, sv: SvId) -> Result<(), Memory>
    ensures { OnOk result (text.new ≡ text.old ++ variable_name mission.now sv.0) }
{
    match mission.vars.as_slice().get(sv.0 as usize) {
        Some(var) => text.push_bytes(var.name.as_bytes()),
        None => Ok(()),
    }
}

/// Puts the name of a value at the end; nothing where the mission doesn't have it.
pub(crate) fn push_value(text: &mut Text, mission: &Mission, kind: Kind) -> Result<(), Memory>
    ensures { OnOk result (text.new ≡ text.old ++ value_name mission.now kind) }
{
    let Some(var) = mission.vars.as_slice().get(kind.sv.0 as usize) else {
        return Ok(());
    };
    match var.values.as_slice().get(kind.value.0 as usize) {
        Some(value) => text.push_bytes(value.name.as_bytes()),
        None => Ok(()),
    }
}

/// Puts a token at the end, as `camera 0`.
pub(crate) fn push_token(text: &mut Text, mission: &Mission, token: TokenRef) -> Result<(), Memory>
    ensures { OnOk result (text.new ≡ text.old ++ token_text mission.now token) }
{
    push_variable(text, mission, token.sv)?;
    text.push_bytes(b" ")?;
    push_number(text, u64::from(token.place))
}

/// Puts a point at the end by its name: `Z`, `H 1` or `camera 0`.
pub fn push_name(text: &mut Text, mission: &Mission, name: PointName) -> Result<(), Memory>
    ensures { OnOk result (text.new ≡ text.old ++ spelled_point mission.now (named name)) }
{
    match name {
        PointName::Origin => text.push_bytes(b"Z"),
        PointName::Horizon(k) => {
            text.push_bytes(b"H ")?;
            push_number(text, u64::from(k))
        }
        PointName::End(token) => push_token(text, mission, token),
    }
}

/// Puts a point at the end by its number; nothing where there is no such point.
pub fn push_point(
    text: &mut Text,
    mission: &Mission,
    index: &PlanIndex,
    point: PointId,
) -> Result<(), Memory>
    ensures { OnOk result (text.new ≡ text.old ++ point_in mission.now index.now.points point.0) }
{
    match index.name(point) {
        Some(name) => push_name(text, mission, name),
        None => Ok(()),
    }
}

/// Puts a bound at the end, as `camera 1 to camera 0 most -3`.
pub fn push_bound(
    text: &mut Text,
    mission: &Mission,
    index: &PlanIndex,
    bound: &Bound,
) -> Result<(), Memory>
    ensures { OnOk result (text.new ≡ text.old ++ bound_in mission.now index.now.points bound.now) }
{
    push_point(text, mission, index, bound.from)?;
    text.push_bytes(b" to ")?;
    push_point(text, mission, index, bound.to)?;
    text.push_bytes(b" most ")?;
    push_signed(text, bound.most)
}

/// Puts a bound at the end, between points of the plan with a further extension.
pub fn push_bound_with(
    text: &mut Text,
    mission: &Mission,
    index: &PlanIndex,
    extension: &Extension,
    bound: &Bound,
) -> Result<(), Memory>
    ensures { OnOk result (text.new
        ≡ text.old ++ bound_in mission.now (extended index.now extension.now).points bound.now) }
{
    push_point_with(text, mission, index, extension, bound.from)?;
    text.push_bytes(b" to ")?;
    push_point_with(text, mission, index, extension, bound.to)?;
    text.push_bytes(b" most ")?;
    push_signed(text, bound.most)
}

fn push_point_with(
    text: &mut Text,
    mission: &Mission,
    index: &PlanIndex,
    extension: &Extension,
    point: PointId,
) -> Result<(), Memory>
    ensures { OnOk result (text.new
        ≡ text.old ++ point_in mission.now (extended index.now extension.now).points point.0) }
{
    match index.name_with(extension, point) {
        Some(name) => push_name(text, mission, name),
        None => Ok(()),
    }
}
