ghost use Rattle.std.specs.Prelude.{IfOk, MatchResult};
ghost use Rattle.hs_texts.specs.MissionSpelling.{IsRefusalOf};
ghost use Rattle.text_laws.specs.Refused.{OrMemory};
ghost use Rattle.commands.specs.Prints.{IsAccepted, Prints};

use crate::outcome::refused;
use crate::{Outcome, Status};
use ddl_read::read;
use domain_check::accept;
use hs_base::Memory;
use hs_texts::{Ast, Refusal};
use std::alloc::Global;

/// The accepted mission that a text spells, as it is written.
fn accepted(alloc: Global, text: &[u8]) -> Result<Ast, Refusal>
    ensures { MatchResult result (IsAccepted text.now) (OrMemory (IsRefusalOf text.now)) }
{
    let ast = read(alloc, text)?;
    let _ = accept(alloc, &ast)?;
    Ok(ast)
}

/// Prints a mission: its one canonical text, or its first refusal.
pub fn print(alloc: Global, text: &[u8]) -> Result<Outcome, Memory>
    ensures { IfOk result (λ o. Prints text.now o.status o.text) }
{
    match accepted(alloc, text) {
        Ok(ast) => Ok(Outcome {
            status: Status::Done,
            text: ddl_print::print(alloc, &ast)?,
        }),
        Err(refusal) => refused(alloc, &refusal),
    }
}
