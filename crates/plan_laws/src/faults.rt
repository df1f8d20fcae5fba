ghost use Rattle.std.specs.Prelude.{◌≡◌, ◌≢◌, ◌⊎◌, List};
ghost use Rattle.hs_base.specs.declared.net.Bound.{Bound};
ghost use Rattle.hs_base.specs.declared.mission.Mission.{Mission};
ghost use Rattle.hs_base.specs.declared.plan.Extension.{Extension};
ghost use Rattle.hs_base.specs.declared.fault.Fault.{Fault};
ghost use Rattle.hs_base.specs.declared.fault.Fault.TheVariants.{Memory as NoMemoryLeft};
ghost use Rattle.hs_base.specs.Schedule.{Schedule, Meets};
ghost use Rattle.hs_base.specs.Cycles.{IsNegativeCycle};
ghost use Rattle.hs_base.specs.Checked.{joined, schedule, Checked};
ghost use Rattle.hs_base.specs.Faults.{rule_of, IsFault};

/// A negative cycle of bounds excludes a schedule of them.
pub fn a_negative_cycle_has_no_schedule()
    ensures { (bounds cycle : List Bound) (s : Schedule) → IsNegativeCycle bounds cycle → Meets bounds s → ⊥ }
{}

/// A fault excludes that the plan with the extension is checked.
pub fn a_fault_excludes_a_checked_plan()
    ensures { (m : Mission) (es : List Extension) (e : Extension) (f : Fault) → f ≢ NoMemoryLeft → IsFault m es e f → Checked m (joined es e) → ⊥ }
{}

/// An extension has one fault, but for want of memory and for which negative cycle is named.
pub fn an_extension_has_one_fault()
    ensures { (m : Mission) (es : List Extension) (e : Extension) (f g : Fault) → f ≢ NoMemoryLeft → g ≢ NoMemoryLeft → IsFault m es e f → IsFault m es e g → (f ≡ g) ⊎ ((rule_of f ≡ schedule) × (rule_of g ≡ schedule)) }
{}
