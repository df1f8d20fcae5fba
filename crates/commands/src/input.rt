ghost use Rattle.std.specs.Prelude.{MatchResult};
ghost use Rattle.hs_texts.specs.MissionSpelling.{IsRefusalOf};
ghost use Rattle.text_laws.specs.Refused.{OrMemory};
ghost use Rattle.commands.specs.Inputs.{IsWhole, IsInFront, IsFrontRefusalOf, IsGiven, IsGivenRefusal};

use ddl_read::{Pieces, read, read_front};
use domain_check::accept;
use hs_base::{Mission, Plan};
use hs_texts::Refusal;
use std::alloc::Global;

/// The accepted mission that a text spells.
pub fn whole(alloc: Global, text: &[u8]) -> Result<Mission, Refusal>
    ensures { MatchResult result (IsWhole text.now) (OrMemory (IsRefusalOf text.now)) }
{
    let ast = read(alloc, text)?;
    let mission = accept(alloc, &ast)?;
    Ok(mission)
}

/// The accepted mission at the front of a text, and how many pieces it has.
pub fn front(alloc: Global, text: &[u8]) -> Result<(Mission, u32), Refusal>
    ensures { MatchResult result (λ read. IsInFront text.now read.0 read.1) (OrMemory (IsFrontRefusalOf text.now)) }
{
    let (ast, used) = read_front(alloc, text)?;
    let mission = accept(alloc, &ast)?;
    Ok((mission, used))
}

/// The accepted mission of a text, and the plan for it that follows.
pub fn given(alloc: Global, text: &[u8]) -> Result<(Mission, Plan), Refusal>
    ensures { MatchResult result (λ read. IsGiven text.now read.0 read.1.extensions) (OrMemory (IsGivenRefusal text.now)) }
{
    let (mission, used) = front(alloc, text)?;
    let pieces = Pieces::cut(alloc, text)?;
    let plan = plan_text::read(alloc, &mission, &pieces, used)?;
    Ok((mission, plan))
}
