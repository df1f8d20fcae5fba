ghost use Rattle.std.specs.Prelude.{◌≡◌, ◌≤◌, ℕ, List, length, IfOk};
ghost use Rattle.hs_texts.specs.declared.ast.Ast.{Ast as AstOf};
ghost use Rattle.hs_base.specs.declared.limits.TheConstants.{TEXT_BYTES};
ghost use Rattle.hs_texts.specs.CanonicalText.{canonical};
ghost use Rattle.hs_texts.specs.MissionSpelling.{Spells};

use crate::horizons::push_horizons;
use crate::needs::push_needs;
use crate::values::push_vars;
use hs_base::Memory;
use hs_texts::{Ast, Text};
use plan_text::push_number;
use std::alloc::Global;

/// The canonical text of a mission: a clause a line, numbers without leading zeros, and neither the
/// range `[0,inf]` of a goal nor the script `until done`. Sorts, parameters and arguments are left out.
///
/// What is printed is read back: where some text spells the mission, the one that is printed spells
/// it, unless it is longer than [`hs_base::TEXT_BYTES`], and it spells no other.
pub fn print(alloc: Global, ast: &Ast) -> Result<Text, Memory>
    ensures canonical { IfOk result (λ text. text ≡ canonical ast.now) }
    ensures spelled { (bytes : List ℕ) → Spells bytes ast.now
        → IfOk result (λ text. length text ≤ TEXT_BYTES → Spells text ast.now) }
    ensures alone { (bytes : List ℕ) (b : AstOf) → Spells bytes ast.now
        → IfOk result (λ text. Spells text b → b ≡ ast.now) }
{
    let mut text = Text::new(alloc);
    text.push_bytes(b"hsts ")?;
    push_number(&mut text, u64::from(ast.version))?;
    text.push_bytes(b"\n")?;
    push_vars(&mut text, ast.vars.as_slice())?;
    push_needs(&mut text, ast.needs.as_slice())?;
    push_horizons(&mut text, ast.horizons.as_slice())?;
    text.push_bytes(b"end\n")?;
    Ok(text)
}
