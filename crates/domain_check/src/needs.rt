ghost use Rattle.std.specs.Prelude.{◌≡◌, ◌<◌, ◌^◌, length};
ghost use Rattle.std.specs.List.{list_any};
ghost use Rattle.hs_texts.specs.declared.ast.AstChoice.{AstChoice as WrittenChoice};
ghost use Rattle.hs_texts.specs.declared.ast.AstNeed.{AstNeed as WrittenNeed};
ghost use Rattle.hs_texts.specs.declared.refusal.Refusal.TheVariants.{SameVar, SameBy};
ghost use Rattle.hs_texts.specs.MissionRefusals.{places, asks_itself as asks_itself_spec, same_written_kind, asks_twice as asks_twice_spec};
ghost use Rattle.domain_check.specs.Checking.{Tells};

use hs_texts::{AstChoice, AstKind, AstNeed, Refusal};

/// Whether a choice asks for a token of the need's own variable.
fn asks_itself(need: &AstNeed) -> bool
    ensures { result ≡ asks_itself_spec need.now }
{
    need.either
        .as_slice()
        .iter()
        .any(|choice| choice.by.sv == need.of.sv)
}

/// Refuses the first need that asks for a token of its own variable.
pub fn check_variables(needs: &[AstNeed]) -> Result<(), Refusal>
    requires { length needs.now < 2 ^ 32 }
    ensures { Tells SameVar (places asks_itself_spec needs.now) result }
{
    for i in 0..needs.len() {
        if asks_itself(&needs[i]) {
            return Err(Refusal::SameVar { item: i as u32 });
        }
    }
    Ok(())
}

fn is_same_kind(one: &AstKind, other: &AstKind) -> bool
    ensures { result ≡ same_written_kind one.now other.now }
{
    one.sv == other.sv && one.value.name == other.value.name
}

/// Whether one of the choices asks for that kind.
fn ask_for(choices: &[AstChoice], kind: &AstKind) -> bool
    ensures { result ≡ list_any (λ (d : WrittenChoice). same_written_kind kind.now d.by) choices.now }
{
    choices.iter().any(|choice| is_same_kind(kind, &choice.by))
}

/// Whether two choices ask for one kind; there are few.
fn asks_twice(choices: &[AstChoice]) -> bool
    ensures { result ≡ asks_twice_spec choices.now }
{
    for i in 0..choices.len() {
        if ask_for(&choices[i + 1..], &choices[i].by) {
            return true;
        }
    }
    false
}

/// Refuses the first need of which two choices ask for one kind.
pub fn check_choices(needs: &[AstNeed]) -> Result<(), Refusal>
    requires { length needs.now < 2 ^ 32 }
    ensures { Tells SameBy (places (λ (n : WrittenNeed). asks_twice_spec n.either) needs.now) result }
{
    for i in 0..needs.len() {
        if asks_twice(needs[i].either.as_slice()) {
            return Err(Refusal::SameBy { item: i as u32 });
        }
    }
    Ok(())
}
