ghost use Rattle.std.specs.Prelude.{◌≡◌, ◌≢◌, [], IfOk, IfErr};
ghost use Rattle.hs_base.specs.declared.fault.Fault.TheVariants.{Memory as NoMemoryLeft};
ghost use Rattle.hs_base.specs.Missions.{IsMission};
ghost use Rattle.hs_base.specs.Checked.{joined, Checked};
ghost use Rattle.hs_base.specs.Faults.{IsFault};
ghost use Rattle.plan_check.specs.Planned.{Joins};

use crate::CheckedPlan;
use crate::claims::Claims;
use crate::rules::check_rules;
use crate::schedule::{check_schedule, trail_of};
use hs_base::{Extension, Fault, Memory, Mission, Plan};
use plan_index::PlanIndex;
use std::alloc::Global;
use std::marker::Model;
use stn_trail::Trail;

/// A checked plan to which extensions are added one after the other: each costs what it adds and
/// the points that are not fixed yet. Contracts see the mission and the plan.
#[derive(Drop)]
pub struct Checker {
    alloc: Global,
    mission: Mission,
    plan: Plan,
    index: PlanIndex,
    claims: Claims,
    /// The points and bounds of the plan, with a schedule of them.
    trail: Trail,
}

impl Model for Checker {
    ghost use Rattle.plan_check.specs.Planned.{Planned};
    ghost use Rattle.plan_check.specs.Walked.{IsWalked};

    ghost Value = { Planned };

    ghost view = { λ c. record { mission = c.mission; plan = c.plan } };

    ghost invariant = { λ c. IsWalked c.mission c.plan.extensions c.index c.claims.set c.trail };
}

impl Checker {
    /// A checker of the plan without extension.
    pub fn begin(alloc: Global, mission: Mission) -> Result<Checker, Memory>
        requires { IsMission mission }
        ensures mission { IfOk result (λ c. c.mission ≡ mission) }
        ensures plan { IfOk result (λ c. c.plan.extensions ≡ []) }
    {
        Checker::of(alloc, CheckedPlan::none(alloc, mission)?)
    }

    /// A checker of further extensions of a plan.
    pub fn of(alloc: Global, plan: CheckedPlan) -> Result<Checker, Memory>
        ensures mission { IfOk result (λ c. c.mission ≡ plan.mission) }
        ensures plan { IfOk result (λ c. c.plan ≡ plan.plan) }
    {
        let claims = Claims::of_plan(alloc, plan.plan().extensions.as_slice())?;
        let trail = trail_of(alloc, plan.mission(), plan.plan())?;
        let (mission, plan, index) = plan.into_parts();
        Ok(Checker {
            alloc,
            mission,
            plan,
            index,
            claims,
            trail,
        })
    }

    /// Adds an extension, exactly where the plan with it is a checked one, or else names the first
    /// fault, in the order of the rules. Which cycle is named is left free. A refusal ends the
    /// checker.
    pub fn check(self, extension: Extension) -> Result<Checker, Fault>
        ensures joins { IfOk result (Joins self extension) }
        ensures checked { IfOk result (λ c. Checked c.mission c.plan.extensions) }
        ensures fault { IfErr result (IsFault self.mission self.plan.extensions extension) }
        ensures refused { IfErr result (λ f. f ≢ NoMemoryLeft → Checked self.mission (joined self.plan.extensions extension) → ⊥) }
    {
        let Checker {
            alloc,
            mission,
            mut plan,
            mut index,
            mut claims,
            mut trail,
        } = self;
        check_rules(&mission, &plan, &mut index, &mut claims, &extension)?;
        check_schedule(alloc, &mission, &plan, &index, &mut trail, &extension)?;
        plan.extensions.push(extension)?;
        Ok(Checker {
            alloc,
            mission,
            plan,
            index,
            claims,
            trail,
        })
    }

    /// The plan; it takes no memory.
    pub fn into_plan(self) -> CheckedPlan
        ensures mission { result.mission ≡ self.mission }
        ensures plan { result.plan ≡ self.plan }
    {
        CheckedPlan::of(self.mission, self.plan, self.index)
    }
}
