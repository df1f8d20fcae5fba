ghost use Rattle.std.specs.Prelude.{◌≡◌, ◌≢◌, List, [], length};
ghost use Rattle.hs_base.specs.declared.mission.Mission.{Mission};
ghost use Rattle.hs_machine.specs.declared.history.Entry.{Entry};
ghost use Rattle.hs_base.specs.Schedule.{Schedule};
ghost use Rattle.hs_base.specs.Fits.{EachOnce};
ghost use Rattle.hs_base.specs.Timelines.{Legal, timelines};
ghost use Rattle.hs_base.specs.Checked.{Checked};
ghost use Rattle.hs_machine.specs.State.{times_of, plan_of, FitsState};
ghost use Rattle.hs_machine.specs.Run.{Run};

/// In a run each point is executed at most once.
pub fn each_point_is_executed_once()
    ensures { (m : Mission) (h : List Entry) → Run m h → EachOnce (times_of h) }
{}

/// In every run with a plan some schedule fits.
pub fn some_schedule_fits()
    ensures { (m : Mission) (h : List Entry) → Run m h → (plan_of h ≡ [] → ⊥) → (s : Schedule) × FitsState m h s }
{}

/// The plan of a run is checked.
pub fn a_plan_of_a_run_is_checked()
    ensures { (m : Mission) (h : List Entry) → Run m h → plan_of h ≢ [] → Checked m (plan_of h) }
{}

/// In every state of a run with a plan some schedule fits that makes legal timelines, and each that
/// fits does.
pub fn a_run_makes_legal_timelines()
    ensures some { (m : Mission) (h : List Entry) → Run m h → plan_of h ≢ [] → (s : Schedule) × FitsState m h s × Legal m (length (plan_of h)) (timelines m (plan_of h) s) }
    ensures each { (m : Mission) (h : List Entry) (s : Schedule) → Run m h → plan_of h ≢ [] → FitsState m h s → Legal m (length (plan_of h)) (timelines m (plan_of h) s) }
{}
