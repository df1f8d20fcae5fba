ghost use Rattle.std.specs.Prelude.{◌≡◌, ◌≤◌, ◌+◌, ℕ};
ghost use Rattle.hs_base.specs.Missions.{IsMission};
ghost use Rattle.drill_mission.specs.Drill.{drill_mission};
ghost use Rattle.drill_mission.specs.Words.{after_word, draws, next_word, word};

/// The drill of each size is a mission, for any seed.
pub fn a_drill_is_a_mission()
    ensures { (size seed : ℕ) → 1 ≤ size → size ≤ 1000 → IsMission (drill_mission size seed) }
{}

/// A word of a seed is the one that its generator gives after those before it, and the generator
/// goes on from there.
pub fn words_follow_one_another()
    ensures word { (seed n : ℕ) → word seed n ≡ next_word (draws seed n) }
    ensures after { (seed n : ℕ) → draws seed (n + 1) ≡ after_word (draws seed n) }
{}
