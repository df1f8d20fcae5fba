ghost use Rattle.std.specs.Prelude.{◌≡◌, ℕ, ◌<◌, ◌++◌, List, length, suc};
ghost use Rattle.hs_base.specs.declared.mission.Mission.{Mission};
ghost use Rattle.hs_machine.specs.declared.history.Entry.{Entry};
ghost use Rattle.hs_machine.specs.declared.history.Phase.TheVariants.{Running};
ghost use Rattle.hs_machine.specs.Histories.{IsPrefix};
ghost use Rattle.hs_machine.specs.Reports.{Polls, reports_of};
ghost use Rattle.hs_machine.specs.Run.{Run};
ghost use Rattle.hs_machine.specs.State.{now_of, phase_of};
ghost use Rattle.simulation_laws.specs.Attended.{IsAttended};
ghost use Rattle.simulation_laws.specs.Ending.{EndsByDevice};
ghost use Rattle.simulation_laws.specs.Standing.{Attends, Standing, Stands, StandsByLine};

/// What a device's answers have told is the front of what longer lists of its answers tell.
pub fn what_a_device_told_stays()
    ensures { (m : Mission) (h : List Entry) (d : ℕ) (polls more : Polls) (k : ℕ) (st : Standing) → Attends m h d polls k st → IsPrefix (reports_of m h d polls) (reports_of m h d (polls ++ more)) }
{}

/// In a running state a device runs the script of its timeline's current token, where a device ends
/// that token, and rests elsewhere.
pub fn a_device_does_what_its_line_shows()
    ensures { (m : Mission) (h : List Entry) (d : ℕ) (polls : Polls) (k : ℕ) (st : Standing) → Run m h → phase_of h ≡ Running → d < length m.vars → Stands m h d polls k st → StandsByLine m h d st }
{}

/// At the end of a run a device that was asked by now is attended, and one that was asked by the tick
/// before is where a device ended the run.
pub fn a_device_is_attended_at_the_end_of_a_run()
    ensures asked { (m : Mission) (h : List Entry) (d : ℕ) (polls : Polls) (st : Standing) → Attends m h d polls (now_of h) st → IsAttended m h d polls }
    ensures unasked { (m : Mission) (h : List Entry) (d : ℕ) (polls : Polls) (k : ℕ) (st : Standing) → suc k ≡ now_of h → EndsByDevice h → Attends m h d polls k st → IsAttended m h d polls }
{}
