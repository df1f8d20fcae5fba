ghost use Rattle.std.specs.Prelude.{◌≡◌, ◌≢◌, ℕ, List, []};
ghost use Rattle.hs_base.specs.declared.mission.Mission.{Mission};
ghost use Rattle.hs_base.specs.declared.plan.Extension.{Extension};
ghost use Rattle.hs_machine.specs.declared.history.Entry.{Entry};
ghost use Rattle.hs_machine.specs.declared.history.Phase.TheVariants.{Ended};
ghost use Rattle.hs_base.specs.Missions.{IsMission};
ghost use Rattle.hs_base.specs.Checked.{Checked};
ghost use Rattle.hs_machine.specs.State.{plan_of, phase_of};
ghost use Rattle.hs_machine.specs.Machine.{handover, done, Turn};
ghost use Rattle.flight_laws.specs.Flights.{HasNoDevices, IsFlight, EndsByFiring, mark_of};

/// The first handover that is Done begins the flight of its plan.
pub fn a_flight_begins_with_its_plan()
    ensures { (m n : Mission) (es : List Extension) (by : ℕ) (h : List Entry) → IsMission m → Turn m [] by (handover n es) done h → IsFlight m es h }
{}

/// A flight is one of a checked plan.
pub fn a_flight_is_of_a_checked_plan()
    ensures { (m : Mission) (es : List Extension) (h : List Entry) → IsFlight m es h → es ≢ [] → Checked m es }
{}

/// A flight without devices that has ended did so by firing its horizon's point.
pub fn a_flight_ends_at_its_horizon()
    ensures { (m : Mission) (es : List Extension) (h : List Entry) → IsFlight m es h → es ≢ [] → HasNoDevices m → phase_of h ≡ Ended → EndsByFiring h (mark_of (plan_of h)) }
{}
