ghost use Rattle.std.specs.Prelude.{◌≡◌, ◌≢◌, ◌∷◌, ◌++◌, [], ◌<ℤ◌, ℤ, List, Some, true};
ghost use Rattle.hs_base.specs.declared.mission.Step.{Step};
ghost use Rattle.hs_base.specs.Missions.{ends_waiting};
ghost use Rattle.hs_machine.specs.Reports.{Polls, awaited, finish};
ghost use Rattle.hs_port.specs.declared.device.Answer.{Answer};
ghost use Rattle.device_script.specs.Runs.{begun, hearing};
ghost use Rattle.simulation_laws.specs.Alike.{AreAlike, answers_after, heard};

/// A runner that hears the answers that come after a tick has finished exactly where its script, by
/// the definition, is finished by them, and it finishes with the answer that the definition names.
pub fn a_runner_finishes_as_its_script_does()
    ensures alike { (steps : List Step) (t : ℤ) (polls : Polls) → ends_waiting steps ≡ true → AreAlike steps t polls }
    ensures last { (steps : List Step) (t : ℤ) (polls : Polls) (at : ℤ) (answer : Answer) → ends_waiting steps ≡ true → t <ℤ at
        → (heard (begun steps) (answers_after t polls)).left ≢ [] → (hearing (heard (begun steps) (answers_after t polls)) answer).left ≡ []
        → finish t (awaited steps) (polls ++ (at, answer) ∷ []) ≡ Some at }
{}
