ghost use Rattle.std.specs.Prelude.{◌≡◌, ◌⊎◌, ℕ, List, [], ◌∷◌, ◌++◌, None};
ghost use Rattle.std.specs.declared.option.Option.{Option};
ghost use Rattle.hs_base.specs.declared.mission.Mission.{Mission};
ghost use Rattle.hs_base.specs.declared.net.Bound.{Bound};
ghost use Rattle.hs_base.specs.declared.plan.Extension.{Extension};
ghost use Rattle.hs_machine.specs.declared.history.Deed.TheVariants.{Fire};
ghost use Rattle.hs_machine.specs.declared.history.Entry.{Entry};
ghost use Rattle.hs_machine.specs.declared.history.Phase.TheVariants.{Ended};
ghost use Rattle.hs_machine.specs.Run.{Run};
ghost use Rattle.hs_machine.specs.State.{phase_of, plan_of};
ghost use Rattle.flight_laws.specs.Flights.{mark_of};
ghost use Rattle.simulation_laws.specs.Ending.{EndsWith};
ghost use Rattle.simulation_laws.specs.Planned.{AreFound, AreInTime, AreOnTime, BeginsPlanned, IsFound, IsGivenPlan, IsOfOnePlan, offered, stale_at};
ghost use Rattle.simulation_laws.specs.Failing.{IsForcedBy};
ghost use Rattle.simulation_laws.specs.Ended.{End, FindsEachPlan, Heard, IsFailedBy, IsSimRun, RoseAt, completed, takes_all};

/// Where no device failed, no report came late or early, and the search finds a plan wherever one is
/// wanted, a run is completed.
pub fn a_run_with_its_plans_is_completed()
    ensures { (nodes : ℕ) (seed : Option ℕ) (given : Option Extension) (heard : List Heard) (m : Mission) (h : List Entry) (end : End)
        → IsSimRun takes_all nodes seed given heard m h end → ((d : ℕ) → RoseAt heard d → ⊥) → ((b : Bound) → IsFailedBy h b → ⊥) → FindsEachPlan takes_all m nodes h → end ≡ completed }
{}

/// A run that has ended fired its newest horizon's point last, whether devices take part or not.
pub fn a_run_that_has_ended_fired_its_horizon_last()
    ensures { (m : Mission) (h : List Entry) → Run m h → phase_of h ≡ Ended → EndsWith h (Fire (mark_of (plan_of h))) }
{}

/// A history with one plan, which it begins with, keeps the rules on later plans, and goes on doing so
/// while none is offered.
pub fn a_run_of_one_plan_is_planned_in_time()
    ensures grows { (h : List Entry) (x : Entry) (e : Extension) → IsOfOnePlan h e → offered x.deed ≡ None → IsOfOnePlan (h ++ x ∷ []) e }
    ensures planned { (h : List Entry) (e : Extension) → IsOfOnePlan h e → BeginsPlanned h × (stale_at h ≡ []) }
    ensures in_time { (m : Mission) (h : List Entry) (e : Extension) → IsOfOnePlan h e → AreInTime m h × AreOnTime m h }
    ensures found { (m : Mission) (nodes : ℕ) (given : Option Extension) (h : List Entry) (e : Extension)
        → IsOfOnePlan h e → IsGivenPlan given [] e ⊎ IsFound takes_all m nodes [] e → AreFound takes_all m nodes given h }
{}

/// A run that failed by a late or an early entry names a bound between two points of its plan that
/// the plan forces: each of its schedules keeps it, and would keep no lower one.
pub fn a_run_that_failed_names_a_bound_that_its_plan_forces()
    ensures { (m : Mission) (h : List Entry) (b : Bound) → Run m h → IsFailedBy h b → IsForcedBy m (plan_of h) b }
{}
