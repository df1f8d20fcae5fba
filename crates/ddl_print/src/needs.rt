ghost use Rattle.std.specs.Prelude.{◌≡◌, ◌++◌, codes, flat_map, map, OnOk};
ghost use Rattle.hs_texts.specs.CanonicalText.{apart, range_text, relation_text, choice_text, need_line};

use crate::parts::{push_kind, push_range};
use hs_base::{Memory, Range, Relation};
use hs_texts::{AstChoice, AstNeed, Text};

fn push_with_range(text: &mut Text, keyword: &[u8], range: Range) -> Result<(), Memory>
    ensures { OnOk result (text.new ≡ text.old ++ (keyword.now ++ range_text range)) }
{
    text.push_bytes(keyword)?;
    push_range(text, range)
}

fn push_with_ranges(
    text: &mut Text,
    keyword: &[u8],
    starts: Range,
    ends: Range,
) -> Result<(), Memory>
    ensures { OnOk result (text.new
        ≡ text.old ++ (keyword.now ++ range_text starts ++ codes " " ++ range_text ends)) }
{
    text.push_bytes(keyword)?;
    push_range(text, starts)?;
    text.push_bytes(b" ")?;
    push_range(text, ends)
}

fn push_relation(text: &mut Text, relation: Relation) -> Result<(), Memory>
    ensures { OnOk result (text.new ≡ text.old ++ relation_text relation) }
{
    match relation {
        Relation::Before(range) => push_with_range(text, b"before ", range),
        Relation::After(range) => push_with_range(text, b"after ", range),
        Relation::Meets => text.push_bytes(b"meets"),
        Relation::MetBy => text.push_bytes(b"met_by"),
        Relation::Starts(range) => push_with_range(text, b"starts ", range),
        Relation::Ends(range) => push_with_range(text, b"ends ", range),
        Relation::Equals => text.push_bytes(b"equals"),
        Relation::Contains(starts, ends) => push_with_ranges(text, b"contains ", starts, ends),
        Relation::ContainedBy(starts, ends) => {
            push_with_ranges(text, b"contained_by ", starts, ends)
        }
    }
}

fn push_choice(text: &mut Text, choice: &AstChoice) -> Result<(), Memory>
    ensures { OnOk result (text.new ≡ text.old ++ choice_text choice.now) }
{
    push_relation(text, choice.relation)?;
    text.push_bytes(b" ")?;
    push_kind(text, &choice.by)
}

/// Puts choices at the end, with `or` between them.
fn push_choices(text: &mut Text, choices: &[AstChoice]) -> Result<(), Memory>
    ensures { OnOk result (text.new ≡ text.old ++ apart (codes " or ") (map choice_text choices.now)) }
{
    let [first, rest @ ..] = choices else {
        return Ok(());
    };
    push_choice(text, first)?;
    for choice in rest {
        text.push_bytes(b" or ")?;
        push_choice(text, choice)?;
    }
    Ok(())
}

fn push_need(text: &mut Text, need: &AstNeed) -> Result<(), Memory>
    ensures { OnOk result (text.new ≡ text.old ++ need_line need.now) }
{
    text.push_bytes(b"need ")?;
    push_kind(text, &need.of)?;
    text.push_bytes(b" ")?;
    push_choices(text, need.either.as_slice())?;
    text.push_bytes(b"\n")
}

/// Puts the lines of the needs at the end.
pub fn push_needs(text: &mut Text, needs: &[AstNeed]) -> Result<(), Memory>
    ensures { OnOk result (text.new ≡ text.old ++ flat_map need_line needs.now) }
{
    for need in needs {
        push_need(text, need)?;
    }
    Ok(())
}
