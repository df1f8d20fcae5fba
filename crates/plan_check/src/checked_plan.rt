ghost use Rattle.std.specs.Prelude.{◌≡◌, ◌≢◌, [], IfOk, List};
ghost use Rattle.hs_base.specs.Missions.{IsMission};
ghost use Rattle.hs_base.specs.Checked.{Checked, joined};
ghost use Rattle.hs_base.specs.declared.plan.Extension.{Extension};
ghost use Rattle.plan_index.specs.Contents.{contents_of};
ghost use Rattle.plan_check.specs.Planned.{Joins};

use hs_base::{Copies, Extension, List, Memory, Mission, Plan};
use plan_index::PlanIndex;
use std::alloc::Global;
use std::marker::Model;

/// A mission and a plan for it whose every extension passed `check`. Contracts see both.
#[derive(Drop)]
pub struct CheckedPlan {
    mission: Mission,
    plan: Plan,
    index: PlanIndex,
}

impl Model for CheckedPlan {
    ghost use Rattle.plan_check.specs.Planned.{Planned};
    ghost use Rattle.plan_check.specs.Walked.{IsIndexed};

    ghost Value = { Planned };

    ghost view = { λ c. record { mission = c.mission; plan = c.plan } };

    ghost invariant = { λ c. IsIndexed c.mission c.plan.extensions c.index };
}

impl CheckedPlan {
    /// The plan without extension.
    pub fn none(alloc: Global, mission: Mission) -> Result<CheckedPlan, Memory>
        requires { IsMission mission }
        ensures mission { IfOk result (λ c. c.mission ≡ mission) }
        ensures plan { IfOk result (λ c. c.plan.extensions ≡ []) }
    {
        let index = PlanIndex::new(alloc)?;
        let plan = Plan {
            extensions: List::new(alloc),
        };
        Ok(CheckedPlan::of(mission, plan, index))
    }

    /// The plan with a further extension that keeps the rules: what is known isn't checked again.
    pub fn joined(&self, alloc: Global, extension: Extension) -> Result<CheckedPlan, Memory>
        requires { Checked self.now.mission (joined self.now.plan.extensions extension) }
        ensures { IfOk result (Joins self.now extension) }
    {
        let mut plan = self.plan.copy(alloc)?;
        plan.extensions.push(extension)?;
        let index = PlanIndex::of(alloc, plan.extensions.as_slice())?;
        Ok(CheckedPlan::of(self.mission.copy(alloc)?, plan, index))
    }

    /// The last extension of a plan that has one; the others are let go.
    pub fn into_last(self) -> Extension
        requires { self.plan.extensions ≢ [] }
        ensures { (es : List Extension) (e : Extension) → self.plan.extensions ≡ joined es e → result ≡ e }
    {
        let mut extensions = self.plan.extensions.into_vec();
        let last = extensions.len() - 1;
        extensions.swap_remove(last)
    }

    /// A checked plan for a mission, with its index.
    pub(crate) fn of(mission: Mission, plan: Plan, index: PlanIndex) -> CheckedPlan
        requires checked { Checked mission plan.extensions }
        requires index { index ≡ contents_of plan.extensions }
        ensures mission { result.mission ≡ mission }
        ensures plan { result.plan ≡ plan }
    {
        CheckedPlan {
            mission,
            plan,
            index,
        }
    }

    /// The mission, the plan and its index.
    pub(crate) fn into_parts(self) -> (Mission, Plan, PlanIndex)
        ensures mission { result.0 ≡ self.mission }
        ensures plan { result.1 ≡ self.plan }
        ensures index { result.2 ≡ contents_of self.plan.extensions }
        ensures checked { Checked self.mission self.plan.extensions }
    {
        (self.mission, self.plan, self.index)
    }

    /// The mission; it takes no memory.
    pub fn mission(&self) -> &Mission
        ensures mission { result.now ≡ self.now.mission }
        ensures checked { Checked self.now.mission self.now.plan.extensions }
    {
        &self.mission
    }

    /// The plan; it takes no memory.
    pub fn plan(&self) -> &Plan
        ensures plan { result.now ≡ self.now.plan }
        ensures checked { Checked self.now.mission self.now.plan.extensions }
    {
        &self.plan
    }

    /// The index of the plan; it takes no memory.
    pub fn index(&self) -> &PlanIndex
        ensures { result.now ≡ contents_of self.now.plan.extensions }
    {
        &self.index
    }
}

impl Copies for CheckedPlan {
    fn copy(&self, alloc: Global) -> Result<CheckedPlan, Memory> {
        let plan = self.plan.copy(alloc)?;
        let index = PlanIndex::of(alloc, plan.extensions.as_slice())?;
        Ok(CheckedPlan::of(self.mission.copy(alloc)?, plan, index))
    }
}
