ghost use Rattle.std.specs.Prelude.{codes};
ghost use Rattle.hs_base.specs.Ranges.{whole};
ghost use Rattle.text_laws.specs.Parsers.{is_word, many, maybe_after, several};
ghost use Rattle.text_laws.specs.MissionReading.{range_at, var_at, need_at, goal_at, horizon_at, clauses_at, mission_at};
ghost use Rattle.ddl_read.specs.Answers.{Gives};

use crate::reader::Reader;
use crate::unread::Unread;
use hs_base::{LAST, List, Range};
use hs_texts::{Ast, AstGoal, AstHorizon, AstNeed, AstVar};
use std::alloc::Global;

/// The range of a goal whose text has none.
const WHOLE: Range = Range { low: 0, high: LAST };

impl<'a> Reader<'a> {
    /// Reads the ticks at which a goal's token may start; without a clause any.
    fn start(&mut self) -> Result<Range, Unread>
        ensures { Gives result self.new (maybe_after "start" range_at whole self.old) }
    {
        if self.is_at(b"start") {
            self.keyword(b"start")?;
            return self.range();
        }
        Ok(WHOLE)
    }

    /// Reads the ticks at which a goal's token may stop; without a clause any.
    fn stop(&mut self) -> Result<Range, Unread>
        ensures { Gives result self.new (maybe_after "stop" range_at whole self.old) }
    {
        if self.is_at(b"stop") {
            self.keyword(b"stop")?;
            return self.range();
        }
        Ok(WHOLE)
    }

    /// Reads a `goal` clause.
    #[tactic(auto, unfolding(text_laws::specs::MissionReading::goal_at))]
    fn goal(&mut self, alloc: Global, version: u32) -> Result<AstGoal, Unread>
        ensures { Gives result self.new (goal_at version self.old) }
    {
        self.keyword(b"goal")?;
        let kind = self.kind(alloc, version)?;
        let start = self.start()?;
        let stop = self.stop()?;
        Ok(AstGoal { kind, start, stop })
    }

    /// Reads the goals of a horizon.
    fn goals(&mut self, alloc: Global, version: u32) -> Result<List<AstGoal>, Unread>
        ensures { Gives result self.new (many (is_word (codes "goal")) (goal_at version) self.old) }
    {
        let mut goals = List::new(alloc);
        'goals: while self.is_at(b"goal") {
            goals.push(self.goal(alloc, version)?)?;
        }
        Ok(goals)
    }

    /// Reads a `horizon` clause.
    #[tactic(auto, unfolding(text_laws::specs::MissionReading::horizon_at))]
    fn horizon(&mut self, alloc: Global, version: u32) -> Result<AstHorizon, Unread>
        ensures { Gives result self.new (horizon_at version self.old) }
    {
        self.keyword(b"horizon")?;
        let tick = self.number()?;
        let goals = self.goals(alloc, version)?;
        Ok(AstHorizon { tick, goals })
    }

    /// Reads the horizons.
    fn horizons(&mut self, alloc: Global, version: u32) -> Result<List<AstHorizon>, Unread>
        ensures { Gives result self.new (several "horizon" (horizon_at version) self.old) }
    {
        let mut horizons = List::new(alloc);
        horizons.push(self.horizon(alloc, version)?)?;
        'horizons: while self.is_at(b"horizon") {
            horizons.push(self.horizon(alloc, version)?)?;
        }
        Ok(horizons)
    }

    /// Reads the needs.
    fn needs(&mut self, alloc: Global, version: u32) -> Result<List<AstNeed>, Unread>
        ensures { Gives result self.new (many (is_word (codes "need")) (need_at version) self.old) }
    {
        let mut needs = List::new(alloc);
        'needs: while self.is_at(b"need") {
            needs.push(self.need(alloc, version)?)?;
        }
        Ok(needs)
    }

    /// Reads the variables.
    fn vars(&mut self, alloc: Global, version: u32) -> Result<List<AstVar>, Unread>
        ensures { Gives result self.new (several "var" (var_at version) self.old) }
    {
        let mut vars = List::new(alloc);
        vars.push(self.var(alloc, version)?)?;
        'vars: while self.is_at(b"var") {
            vars.push(self.var(alloc, version)?)?;
        }
        Ok(vars)
    }

    /// Reads the clauses of a mission, up to its `end`.
    #[tactic(auto, unfolding(text_laws::specs::MissionReading::clauses_at))]
    fn clauses(&mut self, alloc: Global, version: u32) -> Result<Ast, Unread>
        ensures { Gives result self.new (clauses_at version self.old) }
    {
        let vars = self.vars(alloc, version)?;
        let needs = self.needs(alloc, version)?;
        let horizons = self.horizons(alloc, version)?;
        self.keyword(b"end")?;
        Ok(Ast {
            version,
            sorts: List::new(alloc),
            vars,
            needs,
            horizons,
        })
    }

    /// Reads a mission.
    #[tactic(auto, unfolding(text_laws::specs::MissionReading::mission_at))]
    pub fn mission(&mut self, alloc: Global) -> Result<Ast, Unread>
        ensures { Gives result self.new (mission_at self.old) }
    {
        self.keyword(b"hsts")?;
        let version = self.version()?;
        self.clauses(alloc, version)
    }
}
