ghost use Rattle.std.specs.Prelude.{◌++◌, ◌≡◌, ◌≤◌, [], ℕ, Contains, List};
ghost use Rattle.hs_base.specs.Checked.{Checked, joined};
ghost use Rattle.hs_base.specs.declared.limits.TheConstants.{FREE_POINTS};
ghost use Rattle.hs_base.specs.declared.mission.Mission.{Mission};
ghost use Rattle.hs_base.specs.declared.plan.Extension.{Extension};
ghost use Rattle.search_laws.specs.Good.{AreAllowed};
ghost use Rattle.search_tree.specs.Begun.{Begun};
ghost use Rattle.search_tree.specs.Extends.{extension};
ghost use Rattle.search_tree.specs.Flaws.{flaws};
ghost use Rattle.search_tree.specs.Outset.{MayBegin};
ghost use Rattle.search_tree.specs.Partial.{begin};
ghost use Rattle.search_tree.specs.PartialBounds.{HasSchedule};
ghost use Rattle.search_tree.specs.Parts.{do_parts};
ghost use Rattle.search_tree.specs.Resolvers.{free_with, parts_of, resolvers};
ghost use Rattle.search_tree.specs.Search.{FindsPlan};
ghost use Rattle.search_tree.specs.Tree.{Found, plan};
ghost use Rattle.search_tree.specs.declared.flaw.Flaw.{Flaw};
ghost use Rattle.search_tree.specs.declared.flaw.Resolver.{Resolver};
ghost use Rattle.search_tree.specs.declared.part.Part.{Part};

/// A partial plan that allowed parts made from where a search may begin, with a schedule, without
/// flaw and with no more free points than a plan may have, gives a checked plan.
pub fn a_partial_plan_without_flaw_gives_a_checked_plan()
    ensures { (m : Mission) (b : Begun) (xs : List Part) → MayBegin m b → AreAllowed m b (begin m b) xs → HasSchedule m b (do_parts (begin m b) xs) → flaws m b (do_parts (begin m b) xs) ≡ [] → free_with b (do_parts (begin m b) xs) 0 ≤ FREE_POINTS → Checked m (joined b.base (extension m b (do_parts (begin m b) xs))) }
{}

/// The parts of each resolver of a flaw are allowed, one after another.
pub fn the_parts_of_a_resolver_are_allowed()
    ensures { (m : Mission) (b : Begun) (xs : List Part) (f : Flaw) (r : Resolver) → MayBegin m b → AreAllowed m b (begin m b) xs → Contains (flaws m b (do_parts (begin m b) xs)) f → Contains (resolvers m b (do_parts (begin m b) xs) f) r → AreAllowed m b (begin m b) (xs ++ parts_of (do_parts (begin m b) xs) f r) }
{}

/// Each plan that a search finds is checked.
pub fn each_plan_that_is_found_is_checked()
    ensures { (m : Mission) (b : Begun) (limit : ℕ) (e : Extension) → MayBegin m b → FindsPlan m b limit (plan e) → Checked m (joined b.base e) }
{}

/// A search finds one answer.
pub fn a_search_finds_one_answer()
    ensures { (m : Mission) (b : Begun) (limit : ℕ) (f g : Found Extension) → FindsPlan m b limit f → FindsPlan m b limit g → f ≡ g }
{}
