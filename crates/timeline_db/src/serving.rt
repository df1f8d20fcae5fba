ghost use Rattle.std.specs.Prelude.{◌≡◌, suc, ◌+◌, ◌<◌, ◌≤◌, [], ◌∷◌, ◌++◌, All, Some, length, set, slice_get, IfErr, OnErr, OnOk};
ghost use Rattle.hs_base.specs.Bounds.{goals_of, on_some};
ghost use Rattle.hs_base.specs.Missions.{IsMission};
ghost use Rattle.hs_base.specs.Schedule.{HasNoSchedule};
ghost use Rattle.search_tree.specs.PartialBounds.{backing_bounds};
ghost use Rattle.search_tree.specs.declared.part.Part.TheVariants.{Deferred, MetGoal, Supported};
ghost use Rattle.stn_distance.specs.Ranges.{IsInRange};
ghost use Rattle.stn_trail.specs.Held.{bounds_of, points_of};
ghost use Rattle.timeline_db.specs.Boards.{HasToken, token_of};
ghost use Rattle.timeline_db.specs.Drafts.{KeepsBoard, KeepsDraft, Takes};
ghost use Rattle.timeline_db.specs.Kept.{goal_kept, narrow};
ghost use Rattle.timeline_db.specs.Settling.{KeepsRows, Serves};
ghost use Rattle.timeline_db.specs.Shutting.{IfCycle};

use crate::board::Board;
use crate::bounding::{drop_wide, push_backing, push_goal};
use crate::draft::Draft;
use crate::lookups::goal_at;
use crate::shut::Shut;
use hs_base::{Extension, Memory, Mission, Support, TokenRef};
use search_tree::{Backing, Deferral, Held, Part};
use stn_distance::POINTS;

impl Board {
    /// A support with its tokens.
    fn backing(&self, support: Support) -> Backing
        requires token { HasToken self.now support.token }
        requires by { HasToken self.now support.by }
        ensures { result ≡ record { token = (token_of self.now support.token).held; need = support.need; by = (token_of self.now support.by).held } }
    {
        Backing {
            token: self.token(support.token).held,
            need: support.need,
            by: self.token(support.by).held,
        }
    }

    /// Serves a need of a token. After want of memory nothing has changed.
    fn serve(&mut self, base: &[Extension], name: TokenRef, backing: Backing) -> Result<(), Memory>
        requires token { HasToken self.old name }
        requires need { backing.need < (token_of self.old name).needs }
        ensures serves { OnOk result (Serves base.now name backing.need (self.old.supports.items ++ backing ∷ []) self.old.deferred.items self.old self.new) }
        ensures same { OnErr result (KeepsBoard self.old self.new) }
    {
        self.supports.push(backing)?;
        self.settle(base, name, backing.need);
        Ok(())
    }

    /// Leaves a need of a token to a later plan. After want of memory nothing has changed.
    fn leave(
        &mut self,
        base: &[Extension],
        name: TokenRef,
        deferral: Deferral,
    ) -> Result<(), Memory>
        requires token { HasToken self.old name }
        requires need { deferral.need < (token_of self.old name).needs }
        ensures serves { OnOk result (Serves base.now name deferral.need self.old.supports.items (self.old.deferred.items ++ deferral ∷ []) self.old self.new) }
        ensures same { OnErr result (KeepsBoard self.old self.new) }
    {
        self.deferred.push(deferral)?;
        self.settle(base, name, deferral.need);
        Ok(())
    }

    /// Gives a goal its token.
    fn meet(&mut self, goal: u32, held: Held)
        requires { goal < length self.old.goals.items }
        ensures { KeepsRows self.old.supports.items (set self.old.goals.items goal (Some held)) self.old.deferred.items self.old self.new }
    {
        self.goals[goal as usize] = Some(held);
    }
}

impl Draft {
    /// Notes the bounds of a support that are below LAST.
    pub fn make_support(&mut self, mission: &Mission, support: Support) -> Result<(), Memory>
        requires mission { IsMission mission.now }
        requires token { HasToken self.old.board support.token }
        requires by { HasToken self.old.board support.by }
        ensures made { OnOk result (self.new.made.items ≡ narrow (backing_bounds mission.now (record { token = (token_of self.old.board support.token).held; need = support.need; by = (token_of self.old.board support.by).held }))) }
        ensures board { self.new.board ≡ self.old.board }
        ensures course { self.new.course ≡ self.old.course }
    {
        let backing = self.board.backing(support);
        self.made.clear();
        push_backing(&mut self.made, mission, backing)?;
        drop_wide(&mut self.made);
        Ok(())
    }

    /// Notes the bounds of a goal of the horizon behind so many, for that token, that are below LAST.
    pub fn make_goal(
        &mut self,
        mission: &Mission,
        horizons: usize,
        goal: u32,
        by: TokenRef,
    ) -> Result<(), Memory>
        requires mission { IsMission mission.now }
        requires by { HasToken self.old.board by }
        ensures made { OnOk result (self.new.made.items ≡ narrow (on_some (slice_get (goals_of mission.now (suc horizons)) goal) (λ g. goal_kept g (token_of self.old.board by).held))) }
        ensures board { self.new.board ≡ self.old.board }
        ensures course { self.new.course ≡ self.old.course }
    {
        let held = self.board.token(by).held;
        self.made.clear();
        let Some(wanted) = goal_at(mission, horizons, goal) else {
            return Ok(());
        };
        push_goal(&mut self.made, wanted, held)?;
        drop_wide(&mut self.made);
        Ok(())
    }

    /// Notes no bound.
    pub fn make_none(&mut self)
        ensures made { self.new.made.items ≡ [] }
        ensures board { self.new.board ≡ self.old.board }
        ensures course { self.new.course ≡ self.old.course }
    {
        self.made.clear();
    }

    /// Serves a need of a token by a token, if the bounds that were made can be kept. On a refusal
    /// nothing has changed.
    pub fn support(&mut self, base: &[Extension], support: Support) -> Result<(), Shut>
        requires token { HasToken self.old.board support.token }
        requires by { HasToken self.old.board support.by }
        requires need { support.need < (token_of self.old.board support.token).needs }
        requires room { points_of self.old.course.trail ≤ POINTS }
        requires range { All (IsInRange (points_of self.old.course.trail)) self.old.made.items }
        ensures takes { OnOk result (Takes (Supported support.token support.need support.by) 0 self.old.made.items self.old self.new) }
        ensures serves { OnOk result (Serves base.now support.token support.need (self.old.board.supports.items ++ record { token = (token_of self.old.board support.token).held; need = support.need; by = (token_of self.old.board support.by).held } ∷ []) self.old.board.deferred.items self.old.board self.new.board) }
        ensures same { OnErr result (KeepsDraft self.old self.new) }
        ensures none { IfErr result (λ e. IfCycle e (HasNoSchedule (bounds_of self.old.course.trail ++ self.old.made.items))) }
    {
        let Support { token, need, by } = support;
        let backing = self.board.backing(support);
        self.course
            .take(Part::Supported { token, need, by }, 0, &self.made)?;
        if let Err(memory) = self.board.serve(base, token, backing) {
            let _ = self.course.take_back();
            return Err(Shut::from(memory));
        }
        Ok(())
    }

    /// Gives a goal its token, if the bounds that were made can be kept. On a refusal nothing has
    /// changed.
    pub fn meet_goal(&mut self, goal: u32, by: TokenRef) -> Result<(), Shut>
        requires goal { goal < length self.old.board.goals.items }
        requires by { HasToken self.old.board by }
        requires room { points_of self.old.course.trail ≤ POINTS }
        requires range { All (IsInRange (points_of self.old.course.trail)) self.old.made.items }
        ensures takes { OnOk result (Takes (MetGoal goal by) 0 self.old.made.items self.old self.new) }
        ensures meets { OnOk result (KeepsRows self.old.board.supports.items (set self.old.board.goals.items goal (Some (token_of self.old.board by).held)) self.old.board.deferred.items self.old.board self.new.board) }
        ensures same { OnErr result (KeepsDraft self.old self.new) }
        ensures none { IfErr result (λ e. IfCycle e (HasNoSchedule (bounds_of self.old.course.trail ++ self.old.made.items))) }
    {
        let held = self.board.token(by).held;
        self.course.take(Part::MetGoal { goal, by }, 0, &self.made)?;
        self.board.meet(goal, held);
        Ok(())
    }

    /// Leaves a need of a token to a later plan, if the bounds that were made can be kept. On a
    /// refusal nothing has changed.
    pub fn defer(&mut self, base: &[Extension], token: TokenRef, need: u32) -> Result<(), Shut>
        requires token { HasToken self.old.board token }
        requires need { need < (token_of self.old.board token).needs }
        requires room { points_of self.old.course.trail ≤ POINTS }
        requires range { All (IsInRange (points_of self.old.course.trail)) self.old.made.items }
        ensures takes { OnOk result (Takes (Deferred token need) 0 self.old.made.items self.old self.new) }
        ensures serves { OnOk result (Serves base.now token need self.old.board.supports.items (self.old.board.deferred.items ++ record { stop = (token_of self.old.board token).held.stop; need = need } ∷ []) self.old.board self.new.board) }
        ensures same { OnErr result (KeepsDraft self.old self.new) }
        ensures none { IfErr result (λ e. IfCycle e (HasNoSchedule (bounds_of self.old.course.trail ++ self.old.made.items))) }
    {
        let stop = self.board.token(token).held.stop;
        self.course
            .take(Part::Deferred { token, need }, 0, &self.made)?;
        if let Err(memory) = self.board.leave(base, token, Deferral { stop, need }) {
            let _ = self.course.take_back();
            return Err(Shut::from(memory));
        }
        Ok(())
    }
}
