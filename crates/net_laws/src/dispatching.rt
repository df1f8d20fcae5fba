ghost use Rattle.std.specs.Prelude.{◌≡◌, ◌↔◌, ℕ, ◌<◌, ℤ, pos, ◌+ℤ◌, List, None, Some};
ghost use Rattle.std.specs.List.{AllByRecursion};
ghost use Rattle.hs_base.specs.declared.plan.Time.{Time};
ghost use Rattle.hs_base.specs.declared.net.Bound.{Bound};
ghost use Rattle.hs_base.specs.declared.net.Net.{Net};
ghost use Rattle.hs_base.specs.Schedule.{Schedule};
ghost use Rattle.hs_base.specs.Network.{spread};
ghost use Rattle.hs_base.specs.Reduced.{IsReducedOf};
ghost use Rattle.hs_base.specs.Fits.{Times, Fits, MayBeNow, MayTick, EachOnce, time_at, put};
ghost use Rattle.hs_base.specs.Dispatch.{Marked, MarkedFrom, IsReached};
ghost use Rattle.net_laws.specs.Dispatching.{OfNetworks, InStates, EnabledMayFire, FreeMayTick, MarkedAreForced, MembersFollow, SetHasOneTime, SetIsForced, EachStands, TiedAreTogether, WeightInside, WeightAlong, GoesOn, EarliestEnables, LatestLetsTick, MayOrForbids, ForbiddenMayNot, ForcedIsHeld, FiringSetsOwn, FiringLeavesOthers, TickIsAnswered, MarksTellBounds};

/// Kept edges decide what may be executed now, whether the time may go on, and what is forced.
pub fn kept_edges_decide()
    ensures fire { InStates EnabledMayFire }
    ensures tick { InStates FreeMayTick }
    ensures forced { InStates MarkedAreForced }
    ensures member { InStates MembersFollow }
    ensures set { InStates SetHasOneTime }
    ensures stands { OfNetworks EachStands }
{}

/// Groups and kept edges tell which points are tied, and the tight weights between near points.
pub fn groups_tell_ties_and_weights()
    ensures ties { OfNetworks TiedAreTogether }
    ensures inside { OfNetworks WeightInside }
    ensures along { OfNetworks WeightAlong }
{}

/// A reached state stays one after a lawful step, and allows a tick or forces a point.
pub fn a_reached_state_goes_on()
    ensures fired { (c : ℕ) (net : Net) (at : Times) (n : ℤ) → IsReached c net at n → (x : ℕ) → x < c → at x ≡ None → MayBeNow c (spread net) at n x → IsReached c net (put at x n) n }
    ensures ticked { (c : ℕ) (net : Net) (at : Times) (n : ℤ) → IsReached c net at n → MayTick c (spread net) at n → IsReached c net at (n +ℤ pos 1) }
    ensures progress { InStates GoesOn }
    ensures set_forced { InStates SetIsForced }
{}

/// Windows decide what kept edges decide.
pub fn windows_decide()
    ensures fire { InStates EarliestEnables }
    ensures tick { InStates LatestLetsTick }
{}

/// The network fits the schedules that the plan's bounds fit; a point may be executed or a tight
/// bound forbids that; a forced point is held by an executed one.
pub fn each_answer_has_its_bound()
    ensures fits { (c : ℕ) (k : List Bound) (net : Net) → IsReducedOf c k net → (at : Times) (n : ℤ) (s : Schedule) → Fits c k at n s ↔ Fits c (spread net) at n s }
    ensures fire { InStates MayOrForbids }
    ensures bars { InStates ForbiddenMayNot }
    ensures held { InStates ForcedIsHeld }
{}

/// What the execution of a point does to the times of the groups, and how a tick is answered.
pub fn a_move_changes_one_group()
    ensures own { InStates FiringSetsOwn }
    ensures others { InStates FiringLeavesOthers }
    ensures tick { InStates TickIsAnswered }
{}

/// A mark comes from a set leader, and tells a tight bound from an executed point.
pub fn a_mark_tells_its_bound()
    ensures origin { (edges : List Bound) (time : Times) (n : ℤ) (u : ℕ) → Marked edges time n u → (q : ℕ) × MarkedFrom edges time n q u }
    ensures mark { (edges : List Bound) (time : Times) (n : ℤ) (q u : ℕ) → MarkedFrom edges time n q u → Marked edges time n u }
    ensures tight { InStates MarksTellBounds }
{}

/// A schedule agrees with a list of times, none of them twice, exactly where it agrees with the
/// times by point.
pub fn times_of_a_list()
    ensures { (ts : List Time) (s : Schedule) → EachOnce ts → AllByRecursion (λ (t : Time). s t.point.0 ≡ t.at) ts ↔ ((x : ℕ) (t : ℤ) → time_at ts x ≡ Some t → s x ≡ t) }
{}
