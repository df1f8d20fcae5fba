ghost use Rattle.std.specs.Prelude.{◌≡◌, [], ◌∷◌, ◌++◌, MatchResult};
ghost use Rattle.hs_texts.specs.declared.refusal.Refusal.TheVariants.{Twice};
ghost use Rattle.hs_base.specs.Walks.{join_after};
ghost use Rattle.hs_texts.specs.MissionRefusals.{again, names_again, value_again};
ghost use Rattle.domain_check.specs.Checking.{Tells, IsRefused};
ghost use Rattle.domain_check.specs.Tables.{names_in, names_of_uses, names_of_values};

use crate::names::Names;
use hs_base::{Copies, Name};
use hs_texts::{AstValue, Refusal, Use};
use std::alloc::Global;

/// Adds a name that may not stand there yet.
pub fn add_new<'a>(alloc: Global, names: &mut Names<'a>, name: &'a Name) -> Result<(), Refusal>
    ensures { MatchResult result
        (λ u. (again (names_in names.old) name.now ≡ []) × (names_in names.new ≡ names_in names.old ++ name.now ∷ []))
        (IsRefused Twice (again (names_in names.old) name.now)) }
{
    if names.add(name)? {
        return Ok(());
    }
    Err(Refusal::Twice {
        name: name.copy(alloc)?,
    })
}

/// Refuses two equal names in a `then` list.
pub fn check_next(alloc: Global, next: &[Use]) -> Result<(), Refusal>
    ensures { Tells Twice (names_again (names_of_uses next.now)) result }
{
    let mut names = Names::new(alloc);
    for value in next {
        add_new(alloc, &mut names, &value.name)?;
    }
    Ok(())
}

/// The names of a variable's values; refuses two equal ones, and those in a `then` list.
pub fn value_names<'a>(alloc: Global, values: &'a [AstValue]) -> Result<Names<'a>, Refusal>
    ensures { MatchResult result
        (λ names. (join_after value_again [] values.now ≡ []) × (names_in names ≡ names_of_values values.now))
        (IsRefused Twice (join_after value_again [] values.now)) }
{
    let mut names = Names::new(alloc);
    for value in values {
        add_new(alloc, &mut names, &value.name)?;
        check_next(alloc, value.next.as_slice())?;
    }
    Ok(names)
}
