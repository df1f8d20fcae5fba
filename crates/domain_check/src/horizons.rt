ghost use Rattle.std.specs.Prelude.{◌≡◌, ◌<◌, ◌^◌, [], ◌∷◌, cond, length};
ghost use Rattle.hs_texts.specs.declared.refusal.Refusal.TheVariants.{Horizons};
ghost use Rattle.hs_base.specs.Walks.{join_after};
ghost use Rattle.hs_texts.specs.MissionRefusals.{is_early as is_early_spec};
ghost use Rattle.domain_check.specs.Checking.{Tells};

use hs_texts::{AstHorizon, Refusal};

/// Whether a horizon isn't later than the last of those before it.
fn is_early(before: &[AstHorizon], horizon: &AstHorizon) -> bool
    ensures { result ≡ is_early_spec before.now horizon.now }
{
    match before.last() {
        Some(last) => horizon.tick <= last.tick,
        None => false,
    }
}

/// Refuses the first horizon that isn't later than the one before.
pub fn check_horizons(horizons: &[AstHorizon]) -> Result<(), Refusal>
    requires { length horizons.now < 2 ^ 32 }
    ensures { Tells Horizons (join_after (λ before h. cond (is_early_spec before h) (length before ∷ []) []) [] horizons.now) result }
{
    for i in 0..horizons.len() {
        if is_early(&horizons[..i], &horizons[i]) {
            return Err(Refusal::Horizons { item: i as u32 });
        }
    }
    Ok(())
}
