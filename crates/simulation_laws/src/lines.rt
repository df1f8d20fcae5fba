ghost use Rattle.std.specs.Prelude.{◌≡◌, ◌≢◌, ℕ, List, [], ◌∷◌, ◌++◌, Some, None};
ghost use Rattle.hs_base.specs.declared.ids.PointId.{PointId};
ghost use Rattle.hs_base.specs.declared.mission.Mission.{Mission};
ghost use Rattle.hs_machine.specs.declared.history.Entry.{Entry};
ghost use Rattle.hs_machine.specs.Machine.{Replies, done, fire};
ghost use Rattle.hs_machine.specs.Run.{MayAdd, Run};
ghost use Rattle.hs_machine.specs.State.{executes, hands_over};
ghost use Rattle.hs_machine.specs.Views.{line_of};
ghost use Rattle.simulation_laws.specs.Shown.{IsSameToken, IsShown};

/// Only the end or the horizon's point that the line of some timeline shows may be fired.
pub fn only_what_a_line_shows_may_be_fired()
    ensures { (m : Mission) (h : List Entry) (x : ℕ) → Run m h → Replies m h (fire x) done → IsShown m h x }
{}

/// An entry that hands nothing over, and doesn't execute the end of a timeline's current token, leaves
/// that token and its start as the line shows them.
pub fn a_line_stays_while_its_end_is_open()
    ensures { (m : Mission) (h : List Entry) (e : Entry) (v : ℕ) → MayAdd m h e → hands_over e.deed ≡ None → ((x : PointId) → executes e.deed ≡ Some x → x.0 ≢ (line_of m h v).end)
        → IsSameToken (line_of m h v) (line_of m (h ++ e ∷ []) v) }
{}
