ghost use Rattle.std.specs.Prelude.{◌≡◌, ◌<◌, ℕ, List, None};
ghost use Rattle.hs_base.specs.declared.mission.Mission.{Mission};
ghost use Rattle.hs_machine.specs.declared.history.Entry.{Entry};
ghost use Rattle.hs_machine.specs.declared.history.Phase.TheVariants.{Running, Ended};
ghost use Rattle.hs_machine.specs.State.{plan_of, count_at, executed, phase_of};
ghost use Rattle.hs_machine.specs.Machine.{Replies, tick, fire, done, due};
ghost use Rattle.hs_machine.specs.Run.{Run};
ghost use Rattle.exec_laws.specs.Running.{GoesOn};
ghost use Rattle.exec_laws.specs.Endings.{IsLastEnd};

/// Short of the newest horizon a tick, some fire or some report is answered with Done. The point that
/// is named as due may be fired.
pub fn a_running_state_goes_on()
    ensures goes_on { (m : Mission) (h : List Entry) → Run m h → phase_of h ≡ Running → GoesOn m h }
    ensures due { (m : Mission) (h : List Entry) (x : ℕ) → Run m h → Replies m h tick (due x) → Replies m h (fire x) done }
{}

/// Where a run has ended, only ends of last tokens are not executed.
pub fn an_ended_run_leaves_last_ends()
    ensures { (m : Mission) (h : List Entry) (x : ℕ) → Run m h → phase_of h ≡ Ended → x < count_at h → executed h x ≡ None → IsLastEnd (plan_of h) x }
{}
