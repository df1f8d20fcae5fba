ghost use Rattle.std.specs.Prelude.{◌≡◌, ◌≢◌, ◌⊎◌, ◌<◌, ℕ, false, pos, List, [], ◌∷◌, ◌++◌, None, suc};
ghost use Rattle.hs_base.specs.declared.ids.PointId.{PointId};
ghost use Rattle.hs_base.specs.declared.ids.WordId.{WordId};
ghost use Rattle.hs_base.specs.declared.mission.Mission.{Mission};
ghost use Rattle.hs_base.specs.declared.net.Bound.{Bound};
ghost use Rattle.hs_base.specs.declared.net.Net.{Net};
ghost use Rattle.hs_base.specs.declared.plan.Extension.{Extension};
ghost use Rattle.hs_machine.specs.declared.history.Deed.TheVariants.{Early, Fire, Handover, Report};
ghost use Rattle.hs_machine.specs.declared.history.Entry.{Entry};
ghost use Rattle.hs_machine.specs.declared.history.Phase.TheVariants.{Running};
ghost use Rattle.hs_machine.specs.Machine.{Replies, Reply, done, failed, fire, report, tick};
ghost use Rattle.hs_machine.specs.Eager.{Eager, NoneMayFire};
ghost use Rattle.hs_machine.specs.Reports.{Polls, Script, still_awaited};
ghost use Rattle.hs_machine.specs.Run.{Run};
ghost use Rattle.hs_machine.specs.State.{executes, hands_over, is_tick, now_of, phase_of};
ghost use Rattle.flight_laws.specs.Flights.{steps_left};
ghost use Rattle.hs_port.specs.declared.device.Answer.{Answer};
ghost use Rattle.simulation_laws.specs.Attended.{IsAttended};
ghost use Rattle.simulation_laws.specs.Reported.{report_by};
ghost use Rattle.simulation_laws.specs.Standing.{Finishes, IsOpen, Standing, Stands, StandsAnew, StandsOn, resting, running};

/// At the next tick a device that rests isn't asked; one that runs a script answers, and runs it on or
/// finishes it.
pub fn a_device_stands_after_an_answer()
    ensures unasked { (m : Mission) (h : List Entry) (d : ℕ) (polls : Polls) (k : ℕ) → Stands m h d polls k resting → Stands m h d polls (suc k) resting }
    ensures on { (m : Mission) (h : List Entry) (d : ℕ) (polls : Polls) (k : ℕ) (s : Script) (left : List WordId) (answer : Answer) → Stands m h d polls k (running s left) → still_awaited left answer ≢ []
        → Stands m h d (polls ++ (pos (suc k), answer) ∷ []) (suc k) (running s (still_awaited left answer)) }
    ensures finishes { (m : Mission) (h : List Entry) (d : ℕ) (polls : Polls) (k : ℕ) (s : Script) (left : List WordId) (answer : Answer) → Stands m h d polls k (running s left) → still_awaited left answer ≡ []
        → Finishes m h d (polls ++ (pos (suc k), answer) ∷ []) (suc k) s × IsOpen m h d s }
{}

/// The report of a finished script, whose token's end is open, is answered by Done, or fails by a bound
/// from that end.
pub fn a_finished_script_is_reported_or_comes_early()
    ensures { (m : Mission) (h : List Entry) (d : ℕ) (s : Script) (r : Reply) → phase_of h ≡ Running → IsOpen m h d s → Replies m h (report s.point) r
        → (r ≡ done) ⊎ ((b : Bound) × (r ≡ failed b) × (b.from.0 ≡ s.point)) }
{}

/// A Report that is answered by Done leaves each other device as it stood, and the device whose script
/// had finished with its next script, where there is one. So does one that comes early, but that its
/// own device is then attended.
pub fn a_device_stands_after_a_report()
    ensures own { (m : Mission) (h : List Entry) (by : ℕ) (x : PointId) (d : ℕ) (polls : Polls) (s : Script) → Run m h → Replies m h (report x.0) done → s.point ≡ x.0 → Finishes m h d polls (now_of h) s → IsOpen m h d s
        → StandsAnew m (h ++ (record { by = by; deed = Report x }) ∷ []) d polls (now_of h) }
    ensures other { (m : Mission) (h : List Entry) (by : ℕ) (x : PointId) (w : ℕ) (s : Script) (d : ℕ) (polls : Polls) (k : ℕ) (st : Standing) → Run m h → Replies m h (report x.0) done → s.point ≡ x.0 → IsOpen m h w s → (d ≡ w → ⊥) → Stands m h d polls k st
        → Stands m (h ++ (record { by = by; deed = Report x }) ∷ []) d polls k st }
    ensures early { (m : Mission) (h : List Entry) (by : ℕ) (b : Bound) (d : ℕ) (polls : Polls) (s : Script) → b.from.0 ≡ s.point → IsOpen m h d s → Finishes m h d polls (now_of h) s
        → IsAttended m (h ++ (record { by = by; deed = Early b }) ∷ []) d polls }
    ensures beside { (m : Mission) (h : List Entry) (by : ℕ) (b : Bound) (w : ℕ) (s : Script) (d : ℕ) (polls : Polls) (k : ℕ) (st : Standing) → b.from.0 ≡ s.point → IsOpen m h w s → (d ≡ w → ⊥) → Stands m h d polls k st
        → Stands m (h ++ (record { by = by; deed = Early b }) ∷ []) d polls k st }
{}

/// A Fire that is answered by Done leaves each device as it stood, or lets one that rests begin its next
/// script.
pub fn a_device_stands_after_a_fire()
    ensures { (m : Mission) (h : List Entry) (by : ℕ) (x : PointId) (d : ℕ) (polls : Polls) (st : Standing) → Run m h → Replies m h (fire x.0) done → Stands m h d polls (now_of h) st
        → StandsOn m (h ++ (record { by = by; deed = Fire x }) ∷ []) d polls (now_of h) st }
{}

/// The first handover lets devices begin their first scripts; a later one leaves them as they stood.
pub fn a_device_stands_after_a_handover()
    ensures first { (m : Mission) (by : ℕ) (e : Extension) (n : Net) (d : ℕ) → Run m ((record { by = by; deed = Handover e n }) ∷ []) → StandsAnew m ((record { by = by; deed = Handover e n }) ∷ []) d [] 0 }
    ensures later { (m : Mission) (h : List Entry) (by : ℕ) (e : Extension) (n : Net) (d : ℕ) (polls : Polls) (k : ℕ) (st : Standing) → Run m h → phase_of h ≡ Running → Run m (h ++ (record { by = by; deed = Handover e n }) ∷ []) → Stands m h d polls k st
        → Stands m (h ++ (record { by = by; deed = Handover e n }) ∷ []) d polls k st }
{}

/// An entry that hands nothing over, executes nothing and tells no report of a device leaves it as it
/// stood.
pub fn a_device_stands_after_other_entries()
    ensures { (m : Mission) (h : List Entry) (e : Entry) (d : ℕ) (polls : Polls) (k : ℕ) (st : Standing) → hands_over e.deed ≡ None → executes e.deed ≡ None → report_by d h e.deed ≡ [] → Stands m h d polls k st → Stands m (h ++ e ∷ []) d polls k st }
{}

/// A Report leaves fewer steps of a run.
pub fn a_report_leaves_fewer_steps()
    ensures { (m : Mission) (h : List Entry) (by : ℕ) (x : PointId) → Replies m h (report x.0) done → steps_left (h ++ (record { by = by; deed = Report x }) ∷ []) < steps_left h }
{}

/// In a running state in which no point may be fired, a tick is answered by Done, or a device's report
/// is late.
pub fn a_settled_tick_is_done_or_late()
    ensures { (m : Mission) (h : List Entry) (r : Reply) → Run m h → phase_of h ≡ Running → NoneMayFire m h → Replies m h tick r → (r ≡ done) ⊎ ((b : Bound) × (r ≡ failed b)) }
{}

/// An eager history stays so with any entry but a tick, and with a tick where no point may be fired.
pub fn an_eager_history_stays_so()
    ensures other { (m : Mission) (h : List Entry) (e : Entry) → Eager m h → is_tick e.deed ≡ false → Eager m (h ++ e ∷ []) }
    ensures settled { (m : Mission) (h : List Entry) (e : Entry) → Eager m h → NoneMayFire m h → Eager m (h ++ e ∷ []) }
{}
