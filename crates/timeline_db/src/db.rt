use crate::draft::Draft;
use hs_base::{List, Time};
use plan_check::CheckedPlan;
use std::alloc::Global;
use std::marker::Model;

/// A partial plan for a plan's next horizon: contracts see what was known where the search began,
/// and the parts that were done since.
#[derive(Drop)]
pub struct Db {
    pub(crate) alloc: Global,
    /// The plan that is extended, with its mission.
    pub(crate) base: CheckedPlan,
    pub(crate) since: i64,
    pub(crate) fixed: List<Time>,
    /// The tick of the next horizon.
    pub(crate) tick: i64,
    pub(crate) draft: Draft,
}

impl Model for Db {
    ghost use Rattle.timeline_db.specs.Databases.{IsDb, parts_of};
    ghost use Rattle.timeline_db.specs.Plannings.{Planning};

    ghost Value = { Planning };

    ghost view = { λ d. record { mission = d.base.mission; begun = record { base = d.base.plan.extensions; since = d.since; fixed = d.fixed }; parts = parts_of d.draft.course.steps.items } };

    ghost invariant = { λ d. IsDb d.base.mission (record { base = d.base.plan.extensions; since = d.since; fixed = d.fixed }) d.tick d.draft.board d.draft.course.steps.items d.draft.course.trail };
}
