ghost use Rattle.std.specs.Prelude.{◌≡◌, ◌<◌, ℕ, List, length};
ghost use Rattle.hs_base.specs.declared.mission.Mission.{Mission};
ghost use Rattle.hs_machine.specs.declared.history.Entry.{Entry};
ghost use Rattle.hs_machine.specs.declared.history.Phase.TheVariants.{Running};
ghost use Rattle.hs_machine.specs.State.{phase_of};
ghost use Rattle.hs_machine.specs.Run.{Run};
ghost use Rattle.line_view.specs.Current.{HasCurrent};

/// In a running state each timeline has a token that has started and hasn't ended, which its line shows.
pub fn each_timeline_has_a_current_token()
    ensures { (m : Mission) (h : List Entry) (v : ℕ) → Run m h → phase_of h ≡ Running → v < length m.vars → HasCurrent m h v }
{}
