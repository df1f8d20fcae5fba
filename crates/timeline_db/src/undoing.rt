ghost use Rattle.std.specs.Prelude.{◌≡◌, ◌-◌, ◌<◌, ◌≤◌, None, Some, length, set, slice_get, take};
ghost use Rattle.stn_trail.specs.Held.{Leaves};
ghost use Rattle.timeline_db.specs.Boards.{HasToken};
ghost use Rattle.timeline_db.specs.Settling.{KeepsRows, Unserves};
ghost use Rattle.timeline_db.specs.Taking.{Shows, TakesBack};
ghost use Rattle.timeline_db.specs.declared.course.Step.{Step};

use crate::board::Board;
use crate::draft::Draft;
use crate::{Db, DbMark};
use hs_base::TokenRef;
use search_tree::Part;

impl Board {
    /// Takes the last support back, which is for that need of the token.
    fn unserve(&mut self, token: TokenRef, need: u32)
        requires { HasToken self.old token }
        ensures { Unserves token need (take (length self.old.supports.items - 1) self.old.supports.items) self.old.deferred.items self.old self.new }
    {
        let _ = self.supports.pop();
        self.reopen(token, need);
    }

    /// Takes the last need back that was left to a later plan.
    fn claim(&mut self, token: TokenRef, need: u32)
        requires { HasToken self.old token }
        ensures { Unserves token need self.old.supports.items (take (length self.old.deferred.items - 1) self.old.deferred.items) self.old self.new }
    {
        let _ = self.deferred.pop();
        self.reopen(token, need);
    }

    /// Takes a goal's token back.
    fn unmeet(&mut self, goal: u32)
        requires { goal < length self.old.goals.items }
        ensures { KeepsRows self.old.supports.items (set self.old.goals.items goal None) self.old.deferred.items self.old self.new }
    {
        self.goals[goal as usize] = None;
    }

    /// Takes back what a part changed.
    fn take_back(&mut self, part: Part)
        requires { Shows part self.old }
        ensures { TakesBack part self.old self.new }
    {
        match part {
            Part::Inserted { sv, place, .. } => self.take_out(sv, place, 2),
            Part::Followed { sv, place, .. } => self.take_out(sv, place, 1),
            Part::Joined { sv, place } => self.set_joined(sv, place, false),
            Part::Finished { sv } => self.set_finished(sv, false),
            Part::Supported { token, need, .. } => self.unserve(token, need),
            Part::MetGoal { goal, .. } => self.unmeet(goal),
            Part::Deferred { token, need } => self.claim(token, need),
        }
    }
}

impl Draft {
    /// Takes the last part back.
    fn take_back(&mut self)
        requires some { 0 < length self.old.course.steps.items }
        requires mark { (s : Step) → slice_get self.old.course.steps.items (length self.old.course.steps.items - 1) ≡ Some s → s.mark ≤ length self.old.course.trail.parts }
        requires shows { (s : Step) → slice_get self.old.course.steps.items (length self.old.course.steps.items - 1) ≡ Some s → Shows s.part self.old.board }
        ensures steps { self.new.course.steps.items ≡ take (length self.old.course.steps.items - 1) self.old.course.steps.items }
        ensures board { (s : Step) → slice_get self.old.course.steps.items (length self.old.course.steps.items - 1) ≡ Some s → TakesBack s.part self.old.board self.new.board }
        ensures trail { (s : Step) → slice_get self.old.course.steps.items (length self.old.course.steps.items - 1) ≡ Some s → Leaves s.mark self.old.course.trail self.new.course.trail }
    {
        if let Some(part) = self.course.take_back() {
            self.board.take_back(part);
        }
    }
}

impl Db {
    /// A place to come back to.
    pub fn mark(&self) -> DbMark
        ensures { result ≡ length self.now.parts }
    {
        DbMark::after(self.draft.course.steps.len())
    }

    /// Takes back what was done since the mark.
    pub fn undo(&mut self, mark: DbMark)
        requires { mark ≤ length self.old.parts }
        ensures left { self.new ≡ record { mission = self.old.mission; begun = self.old.begun; parts = take mark self.old.parts } }
    {
        'parts: while self.mark().parts() > mark.parts() {
            self.take_back();
        }
    }

    /// Takes the last part back.
    fn take_back(&mut self)
        requires { 0 < length self.old.parts }
        ensures { self.new ≡ record { mission = self.old.mission; begun = self.old.begun; parts = take (length self.old.parts - 1) self.old.parts } }
    {
        self.draft.take_back();
    }
}
