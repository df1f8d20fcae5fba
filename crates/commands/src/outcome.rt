ghost use Rattle.std.specs.Prelude.{IfOk};
ghost use Rattle.commands.specs.Inputs.{IsTold};

use crate::Status;
use answer_lines::refusal_line;
use hs_base::Memory;
use hs_texts::{Refusal, Text};
use std::alloc::Global;

/// A status, and the text that is written with it.
#[derive(Debug, Drop)]
pub struct Outcome {
    pub status: Status,
    pub text: Text,
}

/// A refusal's line; want of memory has none.
pub(crate) fn refused(alloc: Global, refusal: &Refusal) -> Result<Outcome, Memory>
    ensures { IfOk result (λ o. IsTold refusal.now o.status o.text) }
{
    match refusal {
        Refusal::Memory => Err(Memory),
        _ => Ok(Outcome {
            status: Status::Refused,
            text: refusal_line(alloc, refusal)?,
        }),
    }
}
