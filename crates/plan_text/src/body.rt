ghost use Rattle.std.specs.Prelude.{◌≡◌, ◌++◌, OnOk, flat_map};
ghost use Rattle.hs_texts.specs.Written.{fix_line, token_line, support_line, goal_line, goal_lines, body_in};

use crate::parts::{push_number, push_point, push_signed, push_token, push_value, push_variable};
use hs_base::{Extension, Kind, Memory, Mission, Support, Time, TokenRef};
use hs_texts::Text;
use plan_index::PlanIndex;

fn push_fix(
    text: &mut Text,
    mission: &Mission,
    index: &PlanIndex,
    time: &Time,
) -> Result<(), Memory>
    ensures { OnOk result (text.new ≡ text.old ++ fix_line mission.now index.now.points time.now) }
{
    text.push_bytes(b"fix ")?;
    push_point(text, mission, index, time.point)?;
    text.push_bytes(b" ")?;
    push_signed(text, time.at)?;
    text.push_bytes(b"\n")
}

fn push_fixed(
    text: &mut Text,
    mission: &Mission,
    index: &PlanIndex,
    fixed: &[Time],
) -> Result<(), Memory>
    ensures { OnOk result (text.new ≡ text.old ++ flat_map (fix_line mission.now index.now.points) fixed.now) }
{
    for time in fixed {
        push_fix(text, mission, index, time)?;
    }
    Ok(())
}

fn push_kind(text: &mut Text, mission: &Mission, token: Kind) -> Result<(), Memory>
    ensures { OnOk result (text.new ≡ text.old ++ token_line mission.now token) }
{
    text.push_bytes(b"token ")?;
    push_variable(text, mission, token.sv)?;
    text.push_bytes(b" ")?;
    push_value(text, mission, token)?;
    text.push_bytes(b"\n")
}

fn push_tokens(text: &mut Text, mission: &Mission, tokens: &[Kind]) -> Result<(), Memory>
    ensures { OnOk result (text.new ≡ text.old ++ flat_map (token_line mission.now) tokens.now) }
{
    for token in tokens {
        push_kind(text, mission, *token)?;
    }
    Ok(())
}

fn push_support(text: &mut Text, mission: &Mission, support: &Support) -> Result<(), Memory>
    ensures { OnOk result (text.new ≡ text.old ++ support_line mission.now support.now) }
{
    text.push_bytes(b"support ")?;
    push_token(text, mission, support.token)?;
    text.push_bytes(b" ")?;
    push_number(text, u64::from(support.need))?;
    text.push_bytes(b" ")?;
    push_token(text, mission, support.by)?;
    text.push_bytes(b"\n")
}

fn push_supports(text: &mut Text, mission: &Mission, supports: &[Support]) -> Result<(), Memory>
    ensures { OnOk result (text.new ≡ text.old ++ flat_map (support_line mission.now) supports.now) }
{
    for support in supports {
        push_support(text, mission, support)?;
    }
    Ok(())
}

fn push_goal(
    text: &mut Text,
    mission: &Mission,
    number: usize,
    token: TokenRef,
) -> Result<(), Memory>
    ensures { OnOk result (text.new ≡ text.old ++ goal_line mission.now number token) }
{
    text.push_bytes(b"goal ")?;
    push_number(text, number as u64)?;
    text.push_bytes(b" ")?;
    push_token(text, mission, token)?;
    text.push_bytes(b"\n")
}

fn push_goals(text: &mut Text, mission: &Mission, tokens: &[TokenRef]) -> Result<(), Memory>
    ensures { OnOk result (text.new ≡ text.old ++ goal_lines mission.now 0 tokens.now) }
{
    for (number, token) in tokens.iter().enumerate() {
        push_goal(text, mission, number, *token)?;
    }
    Ok(())
}

/// Puts the lines from `since` to `close` of an extension at the end, where the index is that of the
/// plan that it extends.
pub fn push_body(
    text: &mut Text,
    mission: &Mission,
    index: &PlanIndex,
    extension: &Extension,
) -> Result<(), Memory>
    ensures { OnOk result (text.new ≡ text.old ++ body_in mission.now index.now.points extension.now) }
{
    text.push_bytes(b"since ")?;
    push_signed(text, extension.since)?;
    text.push_bytes(b"\n")?;
    push_fixed(text, mission, index, extension.fixed.as_slice())?;
    push_tokens(text, mission, extension.tokens.as_slice())?;
    push_supports(text, mission, extension.supports.as_slice())?;
    push_goals(text, mission, extension.goals.as_slice())?;
    text.push_bytes(b"close\n")
}
