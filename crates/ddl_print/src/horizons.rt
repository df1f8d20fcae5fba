ghost use Rattle.std.specs.Prelude.{◌≡◌, ◌++◌, flat_map, OnOk};
ghost use Rattle.hs_texts.specs.CanonicalText.{is_whole as is_whole_spec, goal_range, goal_line, horizon_lines};

use crate::parts::{push_kind, push_range};
use hs_base::{LAST, Memory, Range};
use hs_texts::{AstGoal, AstHorizon, Text};
use plan_text::push_signed;

/// Whether the range is `[0,inf]`, which a goal's text leaves out.
fn is_whole(range: Range) -> bool
    ensures { result ≡ is_whole_spec range }
{
    range.low == 0 && range.high == LAST
}

/// Puts a goal's range at the end behind its keyword; nothing where it is `[0,inf]`.
fn push_goal_range(text: &mut Text, keyword: &[u8], range: Range) -> Result<(), Memory>
    ensures { OnOk result (text.new ≡ text.old ++ goal_range keyword.now range) }
{
    if is_whole(range) {
        return Ok(());
    }
    text.push_bytes(keyword)?;
    push_range(text, range)
}

fn push_goal(text: &mut Text, goal: &AstGoal) -> Result<(), Memory>
    ensures { OnOk result (text.new ≡ text.old ++ goal_line goal.now) }
{
    text.push_bytes(b"goal ")?;
    push_kind(text, &goal.kind)?;
    push_goal_range(text, b" start ", goal.start)?;
    push_goal_range(text, b" stop ", goal.stop)?;
    text.push_bytes(b"\n")
}

fn push_goals(text: &mut Text, goals: &[AstGoal]) -> Result<(), Memory>
    ensures { OnOk result (text.new ≡ text.old ++ flat_map goal_line goals.now) }
{
    for goal in goals {
        push_goal(text, goal)?;
    }
    Ok(())
}

fn push_horizon(text: &mut Text, horizon: &AstHorizon) -> Result<(), Memory>
    ensures { OnOk result (text.new ≡ text.old ++ horizon_lines horizon.now) }
{
    text.push_bytes(b"horizon ")?;
    push_signed(text, horizon.tick)?;
    text.push_bytes(b"\n")?;
    push_goals(text, horizon.goals.as_slice())
}

/// Puts the lines of the horizons at the end, with their goals.
pub fn push_horizons(text: &mut Text, horizons: &[AstHorizon]) -> Result<(), Memory>
    ensures { OnOk result (text.new ≡ text.old ++ flat_map horizon_lines horizons.now) }
{
    for horizon in horizons {
        push_horizon(text, horizon)?;
    }
    Ok(())
}
