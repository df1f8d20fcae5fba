ghost use Rattle.std.specs.Prelude.{◌≡◌, suc, ◌+◌, ◌<◌, ◌≤◌, ◌^◌, ◌≤ℤ◌, ◌+ℤ◌, [], ◌∷◌, ◌++◌, All, neg_ℤ, pos, true, length, IfErr, OnErr, OnOk};
ghost use Rattle.hs_base.specs.Bounds.{together};
ghost use Rattle.hs_base.specs.Missions.{IsMission};
ghost use Rattle.hs_base.specs.Ranges.{InRange, whole};
ghost use Rattle.hs_base.specs.Schedule.{HasNoSchedule, bound};
ghost use Rattle.search_tree.specs.declared.part.Part.TheVariants.{Finished, Joined};
ghost use Rattle.stn_distance.specs.Ranges.{IsInRange};
ghost use Rattle.stn_trail.specs.Held.{bounds_of, points_of};
ghost use Rattle.timeline_db.specs.Boards.{ChangesRow, HasPlace, HasToken, Puts, line_at, token_of};
ghost use Rattle.timeline_db.specs.Drafts.{KeepsDraft, Takes};
ghost use Rattle.timeline_db.specs.Kept.{kept_cell};
ghost use Rattle.timeline_db.specs.Lines.{end_of, with_joined};
ghost use Rattle.timeline_db.specs.Putting.{start_behind};
ghost use Rattle.timeline_db.specs.Shutting.{IfCycle};

use crate::board::Board;
use crate::bounding::{Outlook, push_cell, push_from, push_together};
use crate::course::Course;
use crate::shut::Shut;
use crate::token::Token;
use hs_base::{Bound, LAST, Memory, Mission, SvId, TokenRef};
use search_tree::{Cell, Part};
use stn_distance::POINTS;

/// What a part changes: the board, and the trail with the parts that were done.
#[derive(Drop)]
pub(crate) struct Draft {
    pub board: Board,
    pub course: Course,
    /// The bounds of the part that is being done.
    pub made: Vec<Bound>,
}

/// The start of the token behind that place, if there is one.
fn next_start(tokens: &[Token], place: u32) -> Option<u32>
    ensures { result ≡ start_behind tokens.now place }
{
    Some(tokens.get(place as usize + 1)?.held.start)
}

impl Draft {
    /// Puts a new token behind that place, if the bounds that were made can be kept. On a refusal
    /// nothing has changed.
    pub fn put(
        &mut self,
        part: Part,
        sv: SvId,
        place: u32,
        token: Token,
        grown: u32,
    ) -> Result<(), Shut>
        requires place { HasPlace self.old.board sv.0 place }
        requires points { self.old.board.points + grown < 2 ^ 32 }
        requires added { self.old.board.added + 1 < 2 ^ 64 }
        requires total { self.old.board.total + 1 < 2 ^ 64 }
        requires room { points_of self.old.course.trail + grown ≤ POINTS }
        requires range { All (IsInRange (points_of self.old.course.trail + grown)) self.old.made.items }
        ensures takes { OnOk result (Takes part grown self.old.made.items self.old self.new) }
        ensures puts { OnOk result (Puts sv.0 place token grown self.old.board self.new.board) }
        ensures same { OnErr result (KeepsDraft self.old self.new) }
        ensures none { IfErr result (λ e. IfCycle e (HasNoSchedule (bounds_of self.old.course.trail ++ self.old.made.items))) }
    {
        self.course.take(part, grown, &self.made)?;
        if let Err(memory) = self.board.put(sv, place, token, grown) {
            let _ = self.course.take_back();
            return Err(Shut::from(memory));
        }
        Ok(())
    }

    /// Notes the bounds of a new token behind a place.
    pub fn make_cell(
        &mut self,
        mission: &Mission,
        outlook: Outlook,
        sv: SvId,
        place: u32,
        cell: Cell,
    ) -> Result<(), Memory>
        requires before { HasToken self.old.board (record { sv = sv; place = place }) }
        requires mission { IsMission mission.now }
        requires tick { InRange whole outlook.tick }
        requires since { InRange whole outlook.since }
        ensures made { OnOk result (self.new.made.items ≡ kept_cell mission.now outlook.tick outlook.since (token_of self.old.board (record { sv = sv; place = place })).held.stop cell (start_behind (line_at self.old.board sv.0).tokens place)) }
        ensures board { self.new.board ≡ self.old.board }
        ensures course { self.new.course ≡ self.old.course }
    {
        let tokens = self.board.lines[sv.0 as usize].tokens();
        let before = tokens[place as usize].held.stop;
        let next = next_start(tokens, place);
        self.made.clear();
        push_cell(&mut self.made, mission, outlook, before, cell, next)
    }

    /// Notes the bounds of the closing of the gap behind a place.
    pub fn make_join(&mut self, sv: SvId, place: u32) -> Result<(), Memory>
        requires before { HasToken self.old.board (record { sv = sv; place = place }) }
        requires after { HasToken self.old.board (record { sv = sv; place = suc place }) }
        requires small { suc place < 2 ^ 32 }
        ensures made { OnOk result (self.new.made.items ≡ together (token_of self.old.board (record { sv = sv; place = suc place })).held.start (token_of self.old.board (record { sv = sv; place = place })).held.stop) }
        ensures board { self.new.board ≡ self.old.board }
        ensures course { self.new.course ≡ self.old.course }
    {
        let before = self.board.token(TokenRef { sv, place });
        let after = self.board.token(TokenRef {
            sv,
            place: place + 1,
        });
        self.made.clear();
        push_together(&mut self.made, after.held.start, before.held.stop)
    }

    /// Notes the bounds of the finish of a timeline that has tokens.
    pub fn make_finish(&mut self, sv: SvId, tick: i64) -> Result<(), Memory>
        requires row { sv.0 < length self.old.board.lines.items }
        requires tick { (pos 0 ≤ℤ tick) × (tick ≤ℤ LAST) }
        requires some { 0 < length (line_at self.old.board sv.0).tokens }
        ensures made { OnOk result (self.new.made.items ≡ bound (end_of (line_at self.old.board sv.0).tokens) 0 (neg_ℤ (tick +ℤ pos 1)) ∷ []) }
        ensures board { self.new.board ≡ self.old.board }
        ensures course { self.new.course ≡ self.old.course }
    {
        let last = self.board.lines[sv.0 as usize].end();
        self.made.clear();
        push_from(&mut self.made, last, tick + 1)
    }

    /// Closes the gap behind a place, if the bounds that were made can be kept.
    pub fn join(&mut self, sv: SvId, place: u32) -> Result<(), Shut>
        requires row { sv.0 < length self.old.board.lines.items }
        requires place { suc place < length (line_at self.old.board sv.0).tokens }
        requires room { points_of self.old.course.trail ≤ POINTS }
        requires range { All (IsInRange (points_of self.old.course.trail)) self.old.made.items }
        ensures takes { OnOk result (Takes (Joined sv place) 0 self.old.made.items self.old self.new) }
        ensures joins { OnOk result (ChangesRow sv.0 (with_joined (suc place) true (line_at self.old.board sv.0)) self.old.board self.new.board) }
        ensures same { OnErr result (KeepsDraft self.old self.new) }
        ensures none { IfErr result (λ e. IfCycle e (HasNoSchedule (bounds_of self.old.course.trail ++ self.old.made.items))) }
    {
        self.course.take(Part::Joined { sv, place }, 0, &self.made)?;
        self.board.set_joined(sv, place, true);
        Ok(())
    }

    /// Lets no further token come on a timeline, if the bounds that were made can be kept.
    pub fn finish(&mut self, sv: SvId) -> Result<(), Shut>
        requires row { sv.0 < length self.old.board.lines.items }
        requires room { points_of self.old.course.trail ≤ POINTS }
        requires range { All (IsInRange (points_of self.old.course.trail)) self.old.made.items }
        ensures takes { OnOk result (Takes (Finished sv) 0 self.old.made.items self.old self.new) }
        ensures finishes { OnOk result (ChangesRow sv.0 (record (line_at self.old.board sv.0) { finished = true }) self.old.board self.new.board) }
        ensures same { OnErr result (KeepsDraft self.old self.new) }
        ensures none { IfErr result (λ e. IfCycle e (HasNoSchedule (bounds_of self.old.course.trail ++ self.old.made.items))) }
    {
        self.course.take(Part::Finished { sv }, 0, &self.made)?;
        self.board.set_finished(sv, true);
        Ok(())
    }
}
