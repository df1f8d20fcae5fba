ghost use Rattle.std.specs.Prelude.{◌≡◌, ◌<◌, ◌%◌};
ghost use Rattle.drill_mission.specs.Words.{after_word, draws, next_word};

use rand_core::SeedableRng;
use rand_core::utils::NextWord;
use rand_pcg::Lcg64Xsh32;
use std::marker::Model;

/// The words that a seed draws, one after another. Contracts see it as the generator's state and
/// increment.
#[derive(Drop)]
pub struct Draws {
    generator: Lcg64Xsh32,
}

impl Model for Draws {
    ghost use Rattle.rand_pcg.specs.Lcg.{Lcg};

    ghost Value = { Lcg };

    ghost view = { λ d. d.generator };
}

impl Draws {
    /// Before the first word of a seed.
    pub fn begin(seed: u64) -> Draws
        ensures { result ≡ draws seed 0 }
    {
        Draws {
            generator: Lcg64Xsh32::seed_from_u64(seed),
        }
    }

    /// The next word.
    pub fn word(&mut self) -> u32
        ensures word { result ≡ next_word self.old }
        ensures after { self.new ≡ after_word self.old }
    {
        self.generator.next_word()
    }

    /// The next word modulo a bound.
    pub fn below(&mut self, bound: u32) -> u32
        requires { 0 < bound }
        ensures word { result ≡ next_word self.old % bound }
        ensures below { result < bound }
        ensures after { self.new ≡ after_word self.old }
    {
        self.word() % bound
    }
}
