ghost use Rattle.std.specs.Prelude.{◌≡◌, ℕ, ◌+◌, ◌^◌, ◌<◌, ◌≤◌, ◌≢◌, [], ◌∷◌, ◌++◌, length, vec_len, All, OnOk};
ghost use Rattle.plan_index.specs.Lines.{row_of, HasRoom};

use hs_base::{Kind, Memory, PointId, SvId, ValId};
use std::alloc::Global;

/// A token on its timeline: its value, and the point that ends it.
#[derive(Clone, Copy, Debug, PartialEq, Eq)]
pub struct PlacedToken {
    pub value: ValId,
    pub end: PointId,
}

/// The tokens of a variable, by place.
#[derive(Debug, Drop)]
pub(crate) struct Timeline {
    pub tokens: Vec<PlacedToken>,
}

/// Adds empty timelines until there are so many.
fn grow_lines(alloc: Global, lines: &mut Vec<Timeline>, many: usize) -> Result<(), Memory>
    ensures kept { (v : ℕ) → row_of lines.new.items v ≡ row_of lines.old.items v }
    ensures room { (v n : ℕ) → HasRoom lines.old.items v n → HasRoom lines.new.items v n }
    ensures there { OnOk result (many ≤ vec_len lines.new) }
{
    for _ in lines.len()..many {
        lines.push(Timeline {
            tokens: Vec::new(alloc),
        })?;
    }
    Ok(())
}

#[tactic(auto, using(crate::proofs::LineLemmas::row_written))]
/// Makes room for so many tokens on the timeline of a variable.
fn reserve_line(
    alloc: Global,
    lines: &mut Vec<Timeline>,
    sv: SvId,
    more: usize,
) -> Result<(), Memory>
    ensures kept { (v : ℕ) → row_of lines.new.items v ≡ row_of lines.old.items v }
    ensures room { (v n : ℕ) → HasRoom lines.old.items v n → HasRoom lines.new.items v n }
    ensures there { OnOk result (HasRoom lines.new.items sv.0 more) }
{
    grow_lines(alloc, lines, sv.0 as usize + 1)?;
    lines[sv.0 as usize].tokens.reserve(more)?;
    Ok(())
}

/// Makes room for these tokens on their timelines.
pub(crate) fn reserve_lines(
    alloc: Global,
    lines: &mut Vec<Timeline>,
    tokens: &[Kind],
) -> Result<(), Memory>
    ensures kept { (v : ℕ) → row_of lines.new.items v ≡ row_of lines.old.items v }
    ensures room { OnOk result (All (λ k. HasRoom lines.new.items k.sv.0 (length tokens.now)) tokens.now) }
{
    for kind in tokens {
        reserve_line(alloc, lines, kind.sv, tokens.len())?;
    }
    Ok(())
}

/// Puts a token that ends at the point at the end of its timeline, and answers its place there.
pub(crate) fn place(lines: &mut Vec<Timeline>, kind: Kind, end: PointId) -> u32
    requires room { HasRoom lines.old.items kind.sv.0 1 }
    requires few { length (row_of lines.old.items kind.sv.0) < 2 ^ 32 }
    ensures place { result ≡ length (row_of lines.old.items kind.sv.0) }
    ensures own { row_of lines.new.items kind.sv.0 ≡ row_of lines.old.items kind.sv.0 ++ record { value = kind.value; end = end } ∷ [] }
    ensures others { (v : ℕ) → v ≢ kind.sv.0 → row_of lines.new.items v ≡ row_of lines.old.items v }
    ensures room { (v n : ℕ) → HasRoom lines.old.items v (n + 1) → HasRoom lines.new.items v n }
{
    let line = &mut lines[kind.sv.0 as usize];
    let place = line.tokens.len() as u32;
    line.tokens.push_reserved(PlacedToken {
        value: kind.value,
        end,
    });
    place
}
