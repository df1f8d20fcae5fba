ghost use Rattle.std.specs.Prelude.{ℕ, ◌<◌, pos, List, []};
ghost use Rattle.std.specs.List.{AllByRecursion};
ghost use Rattle.hs_base.specs.declared.limits.TheConstants.{LAST};
ghost use Rattle.hs_base.specs.declared.mission.Mission.{Mission};
ghost use Rattle.hs_base.specs.declared.plan.Extension.{Extension};
ghost use Rattle.hs_base.specs.Walks.{EachAfter};
ghost use Rattle.hs_base.specs.Schedule.{Implied};
ghost use Rattle.hs_base.specs.Points.{count};
ghost use Rattle.hs_base.specs.Bounds.{bounds_of};
ghost use Rattle.hs_base.specs.Missions.{IsMission};
ghost use Rattle.hs_base.specs.Checked.{KeepsRules};
ghost use Rattle.plan_laws.specs.Fit.{IsFit};

/// The bounds of a plan that keeps its rules are between its points, of weights within LAST, and
/// hold each point within 0 to LAST of Z.
pub fn bounds_of_a_plan_are_fit_for_distances()
    ensures fit { (m : Mission) (es : List Extension) → IsMission m → EachAfter (KeepsRules m) [] es → AllByRecursion (IsFit (count es)) (bounds_of m es) }
    ensures after_origin { (m : Mission) (es : List Extension) (x : ℕ) → x < count es → Implied (bounds_of m es) x 0 (pos 0) }
    ensures before_last { (m : Mission) (es : List Extension) (x : ℕ) → x < count es → Implied (bounds_of m es) 0 x LAST }
{}
