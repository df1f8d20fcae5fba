ghost use Rattle.plan_text.specs.PlanReading.{fix_at, fixed_points_at, goal_at, goals_at, body_at, extension_at, extensions_at, plan_at};
ghost use Rattle.plan_text.specs.Answers.{Keeps};

use crate::reader::PlanReader;
use crate::stop::Stop;
use crate::written_plan::WrittenPlan;
use hs_base::{List, Mission};
use hs_texts::{WrittenBody, WrittenExtension, WrittenTime, WrittenToken};
use std::alloc::Global;

impl<'a> PlanReader<'a> {
    /// Reads a `fix` clause of an extension of the plan.
    #[tactic(auto, unfolding(crate::specs::PlanReading::fix_at, crate::specs::PlanReading::fixed_at))]
    fn fix(&mut self, alloc: Global, plan: &WrittenPlan) -> Result<WrittenTime, Stop>
        ensures { Keeps result self.new (fix_at plan.now.mission plan.now.extensions self.old) }
    {
        self.keyword(b"fix")?;
        let point = self.point(alloc)?;
        if !plan.may_be_fixed(&point) {
            return Err(Stop::Pieces(point.size()));
        }
        let at = self.number()?;
        Ok(WrittenTime { point, at })
    }

    /// Reads the fixed points of an extension of the plan.
    fn fixed_points(&mut self, alloc: Global, plan: &WrittenPlan) -> Result<List<WrittenTime>, Stop>
        ensures { Keeps result self.new (fixed_points_at plan.now.mission plan.now.extensions self.old) }
    {
        let mut fixed = List::new(alloc);
        'fixed: while self.is_at(b"fix") {
            fixed.push(self.fix(alloc, plan)?)?;
        }
        Ok(fixed)
    }

    /// Reads the `goal` clause of this number.
    #[tactic(auto, unfolding(crate::specs::PlanReading::goal_at, crate::specs::PlanReading::goal_token_at))]
    fn goal(&mut self, alloc: Global, number: usize) -> Result<WrittenToken, Stop>
        ensures { Keeps result self.new (goal_at number self.old) }
    {
        self.keyword(b"goal")?;
        self.exactly(number)?;
        self.token(alloc)
    }

    /// Reads the goals of an extension.
    fn goals(&mut self, alloc: Global) -> Result<List<WrittenToken>, Stop>
        ensures { Keeps result self.new (goals_at self.old) }
    {
        let mut goals = List::new(alloc);
        'goals: while self.is_at(b"goal") {
            goals.push(self.goal(alloc, goals.len())?)?;
        }
        Ok(goals)
    }

    /// Reads the lines from `since` to `close` of an extension of the plan.
    #[tactic(auto, unfolding(crate::specs::PlanReading::body_at, crate::specs::PlanReading::body_back_at, crate::specs::PlanReading::body_end_at))]
    pub fn body(&mut self, alloc: Global, plan: &WrittenPlan) -> Result<WrittenBody, Stop>
        ensures { Keeps result self.new (body_at plan.now.mission plan.now.extensions self.old) }
    {
        self.keyword(b"since")?;
        let since = self.number()?;
        let fixed = self.fixed_points(alloc, plan)?;
        let tokens = self.new_tokens(alloc)?;
        let supports = self.supports(alloc)?;
        let goals = self.goals(alloc)?;
        self.keyword(b"close")?;
        Ok(WrittenBody {
            since,
            fixed,
            tokens,
            supports,
            goals,
        })
    }

    /// Reads an extension of the plan.
    #[tactic(auto, unfolding(crate::specs::PlanReading::extension_at, crate::specs::PlanReading::extension_back_at, crate::specs::PlanReading::extended_at))]
    fn extension(&mut self, alloc: Global, plan: &WrittenPlan) -> Result<WrittenExtension, Stop>
        ensures { Keeps result self.new (extension_at plan.now.mission plan.now.extensions self.old) }
    {
        self.keyword(b"extension")?;
        let base = self.one_more()?;
        let body = self.body(alloc, plan)?;
        Ok(WrittenExtension { base, body })
    }

    /// Reads the extensions of a plan.
    fn extensions(
        &mut self,
        alloc: Global,
        mission: &Mission,
    ) -> Result<List<WrittenExtension>, Stop>
        ensures { Keeps result self.new (extensions_at mission.now self.old) }
    {
        let mut plan = WrittenPlan::new(alloc, mission)?;
        'extensions: while self.is_at(b"extension") {
            let extension = self.extension(alloc, &plan)?;
            plan = plan.with(extension)?;
        }
        Ok(plan.into_extensions())
    }

    /// Reads a plan.
    #[tactic(auto, unfolding(crate::specs::PlanReading::plan_at, crate::specs::PlanReading::plan_back_at, crate::specs::PlanReading::plan_end_at))]
    pub fn plan(&mut self, alloc: Global, mission: &Mission) -> Result<List<WrittenExtension>, Stop>
        ensures { Keeps result self.new (plan_at mission.now self.old) }
    {
        self.keyword(b"hsts")?;
        self.keyword(b"plan")?;
        self.exactly(1)?;
        let extensions = self.extensions(alloc, mission)?;
        self.keyword(b"end")?;
        Ok(extensions)
    }
}
