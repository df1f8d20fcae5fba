ghost use Rattle.std.specs.Prelude.{◌≡◌, ℕ, ◌<◌, List, [], ◌∷◌, ◌++◌, length};
ghost use Rattle.hs_base.specs.declared.mission.Mission.{Mission};
ghost use Rattle.hs_base.specs.declared.net.Net.{Net};
ghost use Rattle.hs_base.specs.declared.plan.Extension.{Extension};
ghost use Rattle.hs_base.specs.Checked.{Checked};
ghost use Rattle.hs_base.specs.Schedule.{Schedule};
ghost use Rattle.hs_machine.specs.declared.history.Deed.TheVariants.{Handover};
ghost use Rattle.hs_machine.specs.declared.history.Entry.{Entry};
ghost use Rattle.hs_machine.specs.declared.history.Phase.TheVariants.{Running};
ghost use Rattle.hs_machine.specs.Machine.{FitsOffer, Replies, done, fire};
ghost use Rattle.hs_machine.specs.Run.{Run};
ghost use Rattle.hs_machine.specs.State.{phase_of, plan_of, tick_at};
ghost use Rattle.hs_machine.specs.Views.{newly_executed, snapshot_of};
ghost use Rattle.search_tree.specs.Begun.{begun_of};
ghost use Rattle.search_tree.specs.Outset.{MayBegin};

/// A checked plan whose last extension was made from what is executed by now has a schedule that fits:
/// its handover isn't stale.
pub fn a_plan_made_now_is_not_stale()
    ensures { (m : Mission) (h : List Entry) (e : Extension) → Run m h → e.since ≡ tick_at h → e.fixed ≡ newly_executed h → Checked m (plan_of h ++ e ∷ [])
        → (s : Schedule) × FitsOffer m h (plan_of h ++ e ∷ []) s }
{}

/// In a running state a handover lets no point be fired that couldn't be fired before.
pub fn a_handover_lets_no_further_point_fire()
    ensures { (m : Mission) (h : List Entry) (by : ℕ) (e : Extension) (n : Net) (x : ℕ) → Run m (h ++ (record { by = by; deed = Handover e n }) ∷ []) → phase_of h ≡ Running
        → Replies m (h ++ (record { by = by; deed = Handover e n }) ∷ []) (fire x) done → Replies m h (fire x) done }
{}

/// A search may begin at what the executive shows of a running state, where a further horizon is left.
pub fn a_search_may_begin_at_a_snapshot()
    ensures { (m : Mission) (h : List Entry) → Run m h → phase_of h ≡ Running → length (plan_of h) < length m.horizons → MayBegin m (begun_of (snapshot_of m h)) }
{}
