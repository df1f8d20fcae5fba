ghost use Rattle.std.specs.List.{AllByRecursion};
ghost use Rattle.std.specs.Prelude.{[], true, ◌++◌, ◌+◌, ◌∷◌, ◌≡◌, ◌≤◌};
ghost use Rattle.hs_base.specs.Bounds.{bounds_of};
ghost use Rattle.hs_base.specs.Missions.{IsMission};
ghost use Rattle.hs_base.specs.Ranges.{InRange, whole};
ghost use Rattle.hs_base.specs.Schedule.{Meets, Schedule};
ghost use Rattle.hs_base.specs.declared.mission.Mission.{Mission};
ghost use Rattle.plan_laws.specs.Fit.{IsFit};
ghost use Rattle.search_tree.specs.Begun.{Begun};
ghost use Rattle.search_tree.specs.Extends.{extension};
ghost use Rattle.search_tree.specs.Flaws.{flaws};
ghost use Rattle.search_tree.specs.May.{MayDo};
ghost use Rattle.search_tree.specs.Outset.{MayBegin};
ghost use Rattle.search_tree.specs.PartBounds.{Adds, part_bounds};
ghost use Rattle.search_tree.specs.Partial.{Partial, begin};
ghost use Rattle.search_tree.specs.PartialBounds.{HasSchedule, partial_bounds};
ghost use Rattle.search_tree.specs.Parts.{do_part, grown_by};
ghost use Rattle.search_tree.specs.Renamed.{node_point};
ghost use Rattle.search_tree.specs.Resolvers.{has_room};
ghost use Rattle.search_tree.specs.Sound.{IsSmall, IsSound};
ghost use Rattle.search_tree.specs.Undo.{undo_part};
ghost use Rattle.search_tree.specs.declared.part.Part.{Part};

/// Where a search may begin its partial plan is sound and has a schedule.
pub fn a_search_begins_with_a_schedule()
    ensures sound { (m : Mission) (b : Begun) → MayBegin m b → IsSound m b (begin m b) }
    ensures schedule { (m : Mission) (b : Begun) → MayBegin m b → HasSchedule m b (begin m b) }
{}

/// A part that may be done keeps a partial plan sound, adds exactly its bounds, which are between
/// the plan's points and within LAST, and can be taken back.
pub fn a_part_is_done_and_taken_back()
    ensures sound { (m : Mission) (b : Begun) (p : Partial) (x : Part) → IsSound m b p → MayDo m b p x → IsSound m b (do_part p x) }
    ensures adds { (m : Mission) (b : Begun) (p : Partial) (x : Part) → IsMission m → MayDo m b p x → Adds m b p x }
    ensures fit { (m : Mission) (b : Begun) (p : Partial) (x : Part) → IsMission m → InRange whole b.since → IsSound m b p → MayDo m b p x → AllByRecursion (IsFit (p.points + grown_by x)) (part_bounds m b p x) }
    ensures back { (m : Mission) (b : Begun) (p : Partial) (x : Part) → MayDo m b p x → undo_part (do_part p x) x ≡ p }
{}

/// One more token has its points among the first 131,072.
pub fn a_partial_plan_has_few_points()
    ensures { (m : Mission) (b : Begun) (p : Partial) → MayBegin m b → IsSmall b p → has_room b p ≡ true → p.points + 2 ≤ 131072 }
{}

/// A schedule of a sound partial plan without flaw is one of the plan with its extension, whose
/// points have other numbers.
pub fn a_plan_has_the_schedules_of_its_partial_plan()
    ensures { (m : Mission) (b : Begun) (p : Partial) (t : Schedule) → IsSound m b p → flaws m b p ≡ [] → Meets (partial_bounds m b p) t → Meets (bounds_of m (b.base ++ extension m b p ∷ [])) (λ x. t (node_point m b p x)) }
{}
