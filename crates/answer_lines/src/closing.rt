ghost use Rattle.std.specs.Prelude.{◌≡◌, ◌++◌, OnOk, codes, flat_map};
ghost use Rattle.std.specs.Fmt.{decimal};
ghost use Rattle.hs_texts.specs.RefusalText.{not_one_text};
ghost use Rattle.hs_texts.specs.ClosingText.{no_plan_line, budget_line, checked_line, drill_line};

use crate::lines::{push_last, push_part};
use hs_base::Memory;
use hs_texts::Text;

/// Puts the line at the end with which a plan of `extensions` extensions is refused where one is
/// asked for.
pub fn push_not_one(text: &mut Text, extensions: u64) -> Result<(), Memory>
    ensures { OnOk result (text.new ≡ text.old ++ not_one_text extensions) }
{
    push_part(text, b"extension ", extensions)?;
    push_part(text, b" fault 1 base ", extensions)?;
    text.push_bytes(b" 0\n")
}

/// Puts the line at the end that there is no plan; `after` is the number of entries before.
pub fn push_no_plan(text: &mut Text, after: u64) -> Result<(), Memory>
    ensures { OnOk result (text.new ≡ text.old ++ no_plan_line after) }
{
    push_last(text, b"no plan after ", after)
}

fn push_path(text: &mut Text, path: &[u32]) -> Result<(), Memory>
    ensures { OnOk result (text.new ≡ text.old ++ flat_map (λ child. codes " " ++ decimal child) path.now) }
{
    for child in path {
        push_part(text, b" ", u64::from(*child))?;
    }
    Ok(())
}

/// Puts the line at the end that the budget of nodes ended; `after` is the number of entries
/// before, and `path` leads to the next node.
pub fn push_budget(text: &mut Text, after: u64, path: &[u32]) -> Result<(), Memory>
    ensures { OnOk result (text.new ≡ text.old ++ budget_line after path.now) }
{
    push_part(text, b"budget after ", after)?;
    text.push_bytes(b" path")?;
    push_path(text, path)?;
    text.push_bytes(b"\n")
}

/// Puts the line at the end that so many extensions were checked.
pub fn push_checked(text: &mut Text, extensions: u64) -> Result<(), Memory>
    ensures { OnOk result (text.new ≡ text.old ++ checked_line extensions) }
{
    push_last(text, b"ok ", extensions)
}

fn push_deeds(text: &mut Text, fires: u64, reports: u64, tick: u64) -> Result<(), Memory>
    ensures { OnOk result (text.new
        ≡ text.old
        ++ (codes " fires " ++ decimal fires ++ codes " reports " ++ decimal reports ++ codes " now "
        ++ decimal tick ++ codes "\n")) }
{
    push_part(text, b" fires ", fires)?;
    push_part(text, b" reports ", reports)?;
    push_last(text, b" now ", tick)
}

/// Puts the line at the end that tells of a drill: its horizons, the points of the last plan, the
/// points that were fired and reported, and the last tick.
pub fn push_drill(
    text: &mut Text,
    horizons: u64,
    points: u64,
    fires: u64,
    reports: u64,
    tick: u64,
) -> Result<(), Memory>
    ensures { OnOk result (text.new ≡ text.old ++ drill_line horizons points fires reports tick) }
{
    push_part(text, b"drill horizons ", horizons)?;
    push_part(text, b" points ", points)?;
    push_deeds(text, fires, reports, tick)
}
