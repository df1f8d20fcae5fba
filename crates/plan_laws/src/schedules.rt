ghost use Rattle.std.specs.Prelude.{◌≡◌, ℕ, ◌<◌, ℤ, pos, ◌+ℤ◌, ◌-ℤ◌, ◌≤ℤ◌, List, [], ◌∷◌, ◌++◌, map};
ghost use Rattle.std.specs.List.{AllByRecursion};
ghost use Rattle.hs_base.specs.declared.net.Bound.{Bound};
ghost use Rattle.hs_base.specs.declared.plan.Extension.{Extension};
ghost use Rattle.hs_base.specs.declared.mission.Mission.{Mission};
ghost use Rattle.hs_base.specs.Schedule.{Schedule, Meets, MeetsList, Holds, Implied, Tight, IsBelow, numbers_from, time_of};
ghost use Rattle.hs_base.specs.Bounds.{IsScheduleOf};

/// Implied bounds compose.
pub fn implied_bounds_compose()
    ensures { (k : List Bound) (p q r : ℕ) (w v : ℤ) → Implied k p q w → Implied k q r v → Implied k p r (w +ℤ v) }
{}

/// Further bounds keep only fewer schedules.
pub fn further_bounds_keep_fewer_schedules()
    ensures { (k more : List Bound) (t : Schedule) → Meets (k ++ more) t → Meets k t }
{}

/// A tight weight holds in each schedule, and is the only one.
pub fn a_tight_weight_is_the_only_one()
    ensures holds { (k : List Bound) (s : Schedule) (p q : ℕ) (w : ℤ) → Tight k p q w → Meets k s → (s q -ℤ s p) ≤ℤ w }
    ensures one { (k : List Bound) (p q : ℕ) (w v : ℤ) → Tight k p q w → Tight k p q v → w ≡ v }
{}

/// The triangle's inequality.
pub fn tight_weights_keep_the_triangle()
    ensures { (k : List Bound) (p q r : ℕ) (a b d : ℤ) → Tight k p q a → Tight k q r b → Tight k p r d → d ≤ℤ (a +ℤ b) }
{}

/// Distances from a point that meet each bound and are implied are the tight weights from it.
pub fn implied_distances_are_tight()
    ensures { (k : List Bound) (p q : ℕ) (d : Schedule) → d p ≡ pos 0 → AllByRecursion (Holds d) k → Implied k p q (d q) → Tight k p q (d q) }
{}

/// Some list with one time for each of the points is a schedule exactly where some function is.
pub fn lists_and_functions_are_one_claim()
    ensures list { (c : ℕ) (k : List Bound) (t : Schedule) → 0 < c → AllByRecursion (IsBelow c) k → Meets k t → MeetsList c k (map t (numbers_from 0 c)) }
    ensures function { (c : ℕ) (k : List Bound) (s : List ℤ) → MeetsList c k s → Meets k (time_of s) }
{}

/// Each schedule of a plan is one of the plan without its last extension.
pub fn schedules_restrict()
    ensures { (m : Mission) (es : List Extension) (e : Extension) (s : Schedule) → IsScheduleOf m (es ++ e ∷ []) s → IsScheduleOf m es s }
{}
