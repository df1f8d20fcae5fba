ghost use Rattle.std.specs.Prelude.{◌≡◌, ◌^◌, ◌<◌, ◌++◌, length, codes, flat_map, IfOk, OnOk};
ghost use Rattle.std.specs.Fmt.{decimal};
ghost use Rattle.hs_base.specs.Points.{count};
ghost use Rattle.hs_texts.specs.Written.{variable_name, bound_in, bound_text};
ghost use Rattle.hs_texts.specs.RefusalText.{fault_lines, fault_text};
ghost use Rattle.answer_lines.specs.Naming.{NamesPoints};

use crate::lines::{push_last, push_numbered, push_part};
use hs_base::{Bound, Extension, Fault, Memory, Mission, SvId};
use hs_texts::Text;
use plan_index::PlanIndex;
use plan_text::{push_bound, push_variable};
use std::alloc::Global;

fn push_pair(text: &mut Text, words: &[u8], first: u32, second: u32) -> Result<(), Memory>
    ensures { OnOk result (text.new
        ≡ text.old ++ (words.now ++ decimal first ++ codes " " ++ decimal second ++ codes "\n")) }
{
    push_part(text, words, u64::from(first))?;
    push_last(text, b" ", u64::from(second))
}

fn push_order(text: &mut Text, mission: &Mission, sv: SvId, place: u32) -> Result<(), Memory>
    ensures { OnOk result (text.new
        ≡ text.old ++ (codes "2 order " ++ variable_name mission.now sv.0 ++ codes " " ++ decimal place ++ codes "\n")) }
{
    text.push_bytes(b"2 order ")?;
    push_variable(text, mission, sv)?;
    push_last(text, b" ", u64::from(place))
}

fn push_unsupported(
    text: &mut Text,
    mission: &Mission,
    sv: SvId,
    place: u32,
    need: u32,
) -> Result<(), Memory>
    ensures { OnOk result (text.new
        ≡ text.old
        ++ (codes "3 unsupported " ++ variable_name mission.now sv.0 ++ codes " " ++ decimal place
        ++ codes " " ++ decimal need ++ codes "\n")) }
{
    text.push_bytes(b"3 unsupported ")?;
    push_variable(text, mission, sv)?;
    push_pair(text, b" ", place, need)
}

fn push_bounds(
    text: &mut Text,
    mission: &Mission,
    index: &PlanIndex,
    bounds: &[Bound],
) -> Result<(), Memory>
    ensures { OnOk result (text.new
        ≡ text.old ++ flat_map (λ b. bound_in mission.now index.now.points b ++ codes "\n") bounds.now) }
{
    for bound in bounds {
        push_bound(text, mission, index, bound)?;
        text.push_bytes(b"\n")?;
    }
    Ok(())
}

fn push_cycle(
    alloc: Global,
    text: &mut Text,
    mission: &Mission,
    extensions: &[Extension],
    bounds: &[Bound],
) -> Result<(), Memory>
    requires { count extensions.now < 2 ^ 32 }
    ensures { OnOk result (text.new
        ≡ text.old
        ++ (codes "7 cycle\n" ++ flat_map (λ b. bound_text mission.now extensions.now b ++ codes "\n") bounds.now)) }
{
    let index = PlanIndex::of(alloc, extensions)?;
    text.push_bytes(b"7 cycle\n")?;
    push_bounds(text, mission, &index, bounds)
}

fn push_lines(
    alloc: Global,
    text: &mut Text,
    mission: &Mission,
    extensions: &[Extension],
    fault: &Fault,
) -> Result<(), Memory>
    requires { NamesPoints fault.now → count extensions.now < 2 ^ 32 }
    ensures { OnOk result (text.new ≡ text.old ++ fault_lines mission.now extensions.now fault.now) }
{
    match fault {
        Fault::Base { given, current } => push_pair(text, b"1 base ", *given, *current),
        Fault::Order { sv, place } => push_order(text, mission, *sv, *place),
        Fault::Unsupported { sv, place, need } => {
            push_unsupported(text, mission, *sv, *place, *need)
        }
        Fault::WrongSupport { number } => push_numbered(text, b"4 support ", *number),
        Fault::Goal { number } => push_numbered(text, b"5 goal ", *number),
        Fault::Fixed { number } => push_numbered(text, b"6 fixed ", *number),
        Fault::Cycle(bounds) => push_cycle(alloc, text, mission, extensions, bounds.as_slice()),
        Fault::Limit { points, tokens } => push_pair(text, b"8 limit ", *points, *tokens),
        Fault::Memory => Ok(()),
    }
}

/// Puts the fault of the last of these extensions of a plan at the end.
pub fn push_fault(
    alloc: Global,
    text: &mut Text,
    mission: &Mission,
    extensions: &[Extension],
    fault: &Fault,
) -> Result<(), Memory>
    requires { NamesPoints fault.now → count extensions.now < 2 ^ 32 }
    ensures { OnOk result (text.new
        ≡ text.old ++ fault_text mission.now extensions.now (length extensions.now) fault.now) }
{
    push_part(text, b"extension ", extensions.len() as u64)?;
    text.push_bytes(b" fault ")?;
    push_lines(alloc, text, mission, extensions, fault)
}

/// The fault of the last of these extensions of a plan.
pub fn fault_line(
    alloc: Global,
    mission: &Mission,
    extensions: &[Extension],
    fault: &Fault,
) -> Result<Text, Memory>
    requires { NamesPoints fault.now → count extensions.now < 2 ^ 32 }
    ensures { IfOk result
        (λ text. text ≡ fault_text mission.now extensions.now (length extensions.now) fault.now) }
{
    let mut text = Text::new(alloc);
    push_fault(alloc, &mut text, mission, extensions, fault)?;
    Ok(text)
}
