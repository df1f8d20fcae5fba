ghost use Rattle.std.specs.Prelude.{◌≡◌, ℕ, List};
ghost use Rattle.hs_base.specs.Checked.{Checked, joined};
ghost use Rattle.hs_base.specs.declared.mission.Mission.{Mission};
ghost use Rattle.hs_base.specs.declared.plan.Extension.{Extension};
ghost use Rattle.search_tree.specs.Begun.{Begun};
ghost use Rattle.search_tree.specs.Outset.{MayBegin};
ghost use Rattle.search_tree.specs.Search.{FindsPlan, FindsWhere};
ghost use Rattle.search_tree.specs.Tree.{Found, plan};

use plan_check::Filter;

/// Each plan that a search finds is checked, whichever plans a filter takes.
pub fn each_plan_that_is_taken_is_checked<F: Filter>()
    ensures { (filter : F) (m : Mission) (b : Begun) (limit : ℕ) (e : Extension) → MayBegin m b → FindsWhere (F.test filter) m b limit (plan e) → Checked m (joined b.base e) }
{}

/// With a filter that takes each plan, a search finds what it finds without one.
pub fn a_filter_that_takes_each_plan_leaves_none_out<F: Filter>()
    ensures some { (filter : F) (m : Mission) (b : Begun) (limit : ℕ) (found : Found Extension) → ((es : List Extension) → F.test filter m es) → FindsWhere (F.test filter) m b limit found → FindsPlan m b limit found }
    ensures all { (filter : F) (m : Mission) (b : Begun) (limit : ℕ) (found : Found Extension) → ((es : List Extension) → F.test filter m es) → FindsPlan m b limit found → FindsWhere (F.test filter) m b limit found }
{}

/// A search finds one answer, whichever plans a filter takes.
pub fn a_search_with_a_filter_finds_one_answer<F: Filter>()
    ensures { (filter : F) (m : Mission) (b : Begun) (limit : ℕ) (f g : Found Extension) → FindsWhere (F.test filter) m b limit f → FindsWhere (F.test filter) m b limit g → f ≡ g }
{}
