ghost use Rattle.std.specs.Prelude.{◌≡◌, ◌+◌, ◌<◌, ◌≤◌, nat_le, Some, None, length, slice_get, option_copied, option_map, IfNone, IfSome};
ghost use Rattle.hs_base.specs.Bounds.{goals_of};
ghost use Rattle.hs_base.specs.Needs.{needs_of};
ghost use Rattle.hs_base.specs.declared.limits.TheConstants.{FREE_POINTS};
ghost use Rattle.search_tree.specs.Begun.{number};
ghost use Rattle.search_tree.specs.May.{IsThere};
ghost use Rattle.search_tree.specs.Partial.{held_by, row};
ghost use Rattle.search_tree.specs.Resolvers.{free_with, has_room, next_of};
ghost use Rattle.timeline_db.specs.Lines.{row_of};
ghost use Rattle.timeline_db.specs.Plannings.{IsOpen, partial_of};
ghost use Rattle.timeline_db.specs.Tracked.{IsLine};

use crate::course::is_kept;
use crate::{Db, Line};
use hs_base::{FREE_POINTS, Horizon, Kind, Mission, NEW_TOKENS, Need, SvId, TokenRef, ValId};

impl Db {
    /// The mission.
    pub fn mission(&self) -> &Mission
        ensures { result.now ≡ self.now.mission }
    {
        self.base.mission()
    }

    /// The partial plan's bounds have a schedule, which the trail keeps.
    pub(crate) fn stays_open(&self)
        ensures { IsOpen self.now }
    {
        is_kept(&self.draft.course.trail);
    }

    /// The next horizon.
    pub(crate) fn horizon(&self) -> Option<&Horizon>
        ensures { option_copied result ≡ slice_get self.now.mission.horizons (length self.now.begun.base) }
    {
        let number = self.base.index().horizons();
        self.base.mission().horizons.as_slice().get(number)
    }

    /// The free points that the finished plan would have with so many more tokens.
    fn free_with(&self, more: usize) -> usize
        requires { more ≤ 1 }
        ensures { result ≡ free_with self.now.begun (partial_of self.now) more }
    {
        let index = self.base.index();
        let points = index.horizons() + 2 + self.draft.board.total + more;
        points
            .saturating_sub(index.fixed().len())
            .saturating_sub(self.fixed.len())
    }

    /// Whether one more token would be within the limits.
    pub fn has_room(&self) -> bool
        ensures { result ≡ has_room self.now.begun (partial_of self.now) }
    {
        self.draft.board.added < NEW_TOKENS && self.free_with(1) <= FREE_POINTS
    }

    /// Whether the plan has no more free points than it may have.
    pub fn is_within(&self) -> bool
        ensures { result ≡ nat_le (free_with self.now.begun (partial_of self.now) 0) FREE_POINTS }
    {
        self.free_with(0) <= FREE_POINTS
    }

    /// The timeline of a variable.
    pub fn line(&self, sv: SvId) -> Option<&Line>
        ensures some { IfSome result (λ l. (row_of l.now ≡ row (partial_of self.now) sv.0) × IsLine l.now) }
        ensures none { IfNone result (length self.now.mission.vars ≤ sv.0) }
        ensures lacks { IfNone result (slice_get (partial_of self.now).rows sv.0 ≡ None) }
    {
        self.draft.board.lines.get(sv.0 as usize)
    }

    /// The kind that a goal of the next horizon asks for.
    pub fn wanted(&self, goal: u32) -> Option<Kind>
        ensures { result ≡ option_map (λ g. g.kind) (slice_get (goals_of self.now.mission (number self.now.begun)) goal) }
    {
        let horizon = self.horizon()?;
        Some(horizon.goals.as_slice().get(goal as usize)?.kind)
    }

    /// The need of that number of a token.
    pub fn need(&self, token: TokenRef, need: u32) -> Option<&Need>
        requires { IsThere (partial_of self.now) token }
        ensures { option_copied result ≡ slice_get (needs_of self.now.mission (held_by (partial_of self.now) token).kind) need }
    {
        let kind = self.kind(token)?;
        self.base.mission().need(kind, need)
    }

    /// The kind of a token.
    pub fn kind(&self, token: TokenRef) -> Option<Kind>
        requires { IsThere (partial_of self.now) token }
        ensures { result ≡ Some (held_by (partial_of self.now) token).kind }
    {
        let line = self.line(token.sv)?;
        Some(line.tokens().get(token.place as usize)?.held.kind)
    }

    /// The values that may follow a token of that kind.
    pub fn next(&self, kind: Kind) -> &[ValId]
        ensures { result.now ≡ next_of self.now.mission kind }
    {
        match self.base.mission().value(kind) {
            Some(value) => value.next.as_slice(),
            None => &[],
        }
    }
}
