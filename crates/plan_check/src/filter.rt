ghost use Rattle.std.specs.Prelude.{◌≡◌, ◌↔◌, IfOk, IsTrue, List, ⊤};
ghost use Rattle.hs_base.specs.declared.mission.Mission.{Mission};
ghost use Rattle.hs_base.specs.declared.plan.Extension.{Extension};

use crate::CheckedPlan;
use hs_base::Memory;
use std::alloc::Global;

/// Which plans a search takes: those of which a claim holds, by what the filter holds.
pub trait Filter {
    ghost test: { Self → Mission → List Extension → Type 0 };

    /// Whether the plan is taken; what the filter holds stays as it was.
    fn takes(&mut self, alloc: Global, joined: &CheckedPlan) -> Result<bool, Memory>
        ensures taken { IfOk result (λ taken. IsTrue taken ↔ test self.old joined.now.mission joined.now.plan.extensions) }
        ensures same { self.new ≡ self.old };
}

/// Takes every plan.
#[derive(Debug, Drop)]
pub struct AllPlans;

impl Filter for AllPlans {
    ghost test = { λ filter m es. ⊤ };

    fn takes(&mut self, _alloc: Global, _joined: &CheckedPlan) -> Result<bool, Memory> {
        Ok(true)
    }
}
