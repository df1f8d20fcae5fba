ghost use Rattle.std.specs.Prelude.{◌≡◌, ℕ, ◌<◌, ℤ, pos, List, Some};
ghost use Rattle.hs_base.specs.declared.mission.Mission.{Mission};
ghost use Rattle.hs_base.specs.declared.net.Bound.{Bound};
ghost use Rattle.hs_machine.specs.declared.history.Entry.{Entry};
ghost use Rattle.hs_base.specs.Schedule.{Schedule};
ghost use Rattle.hs_base.specs.Reduced.{Table, IsTableOf};
ghost use Rattle.hs_base.specs.Fits.{Times, Fits};
ghost use Rattle.hs_base.specs.Moments.{Moment, AreAlike};
ghost use Rattle.hs_machine.specs.State.{moment_of};
ghost use Rattle.hs_machine.specs.Machine.{Reply, TickReply, FireReply, ReportReply, tick, fire, report, EventReply};
ghost use Rattle.dispatcher.specs.State.{State, moment};
ghost use Rattle.exec_laws.specs.Follows.{Follows};
ghost use Rattle.exec_laws.specs.Allowing.{AllowsAll};

/// Moments with the same schedules, executed times and observed points, at the same tick, have the same
/// replies.
pub fn like_moments_have_the_same_replies()
    ensures tick { (v w : Moment) (r : Reply) → AreAlike v w → TickReply v r → TickReply w r }
    ensures fire { (v w : Moment) (x : ℕ) (r : Reply) → AreAlike v w → FireReply v x r → FireReply w x r }
    ensures report { (v w : Moment) (x : ℕ) (r : Reply) → AreAlike v w → ReportReply v x r → ReportReply w x r }
{}

/// What a dispatch decides that follows a history is what the machine answers.
pub fn a_dispatch_decides_as_the_machine()
    ensures alike { (w : Moment) (s : State) → Follows w s → AreAlike (moment s) w }
    ensures tick { (m : Mission) (h : List Entry) (s : State) (r : Reply) → Follows (moment_of m h) s → TickReply (moment s) r → EventReply m h tick r }
    ensures fire { (m : Mission) (h : List Entry) (s : State) (x : ℕ) (r : Reply) → Follows (moment_of m h) s → FireReply (moment s) x r → EventReply m h (fire x) r }
    ensures report { (m : Mission) (h : List Entry) (s : State) (x : ℕ) (r : Reply) → Follows (moment_of m h) s → ReportReply (moment s) x r → EventReply m h (report x) r }
{}

/// Some schedule fits executed times exactly where no executed point is too early for another
/// point's time, or for now.
pub fn what_is_allowed_fits()
    ensures fits { (c : ℕ) (k : List Bound) (d : Table) (at : Times) (n : ℤ) → IsTableOf c k d → at 0 ≡ Some (pos 0) → ((x : ℕ) (u : ℤ) → at x ≡ Some u → x < c) → AllowsAll c d at n → (s : Schedule) × Fits c k at n s }
    ensures allows { (c : ℕ) (k : List Bound) (d : Table) (at : Times) (n : ℤ) (s : Schedule) → IsTableOf c k d → Fits c k at n s → AllowsAll c d at n }
{}
