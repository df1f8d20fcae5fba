ghost use Rattle.std.specs.Prelude.{◌≡◌, ◌<◌, suc, false, true, Err, IfErr, IfOk, OnErr, OnOk};
ghost use Rattle.search_tree.specs.Resolvers.{has_room};
ghost use Rattle.search_tree.specs.declared.part.Part.TheVariants.{Finished, Followed, Inserted, Joined};
ghost use Rattle.timeline_db.specs.Plannings.{Does, IsOpen, MayDoNow, WouldShut, partial_of};
ghost use Rattle.timeline_db.specs.Putting.{IsPutting};
ghost use Rattle.timeline_db.specs.Shutting.{IfCycle, IfCycleOrFull};
ghost use Rattle.timeline_db.specs.declared.shut.Shut.TheVariants.{Full};

use crate::bounding::Outlook;
use crate::lookups::count_needs;
use crate::{Db, Shut, Token};
use hs_base::{Kind, Memory, SvId, TokenRef, ValId};
use search_tree::{Cell, Held, Part};

impl Db {
    /// Puts a new token behind that place, as a part that brings so many points. On a refusal
    /// nothing has changed; Cycle comes exactly where the bounds would have no schedule.
    fn put(
        &mut self,
        part: Part,
        sv: SvId,
        place: u32,
        cell: Cell,
        grown: u32,
    ) -> Result<TokenRef, Shut>
        requires may { MayDoNow self.old part }
        requires room { has_room self.old.begun (partial_of self.old) ≡ true }
        requires puts { IsPutting (partial_of self.old) sv place cell grown part }
        ensures does { OnOk result (Does part self.old self.new) }
        ensures token { IfOk result (λ t. t ≡ record { sv = sv; place = suc place }) }
        ensures kept { OnOk result (IsOpen self.new) }
        ensures same { OnErr result (self.new ≡ self.old) }
        ensures shut { IfErr result (λ e. IfCycle e (WouldShut part self.old)) }
    {
        let outlook = Outlook {
            tick: self.tick,
            since: self.since,
        };
        let mission = self.base.mission();
        let token = Token {
            held: cell.held,
            joined: cell.joined,
            needs: count_needs(mission, cell.held.kind),
            unmet: 0,
        };
        self.draft.make_cell(mission, outlook, sv, place, cell)?;
        match self.draft.put(part, sv, place, token, grown) {
            Ok(()) => {
                self.stays_open();
                Ok(TokenRef {
                    sv,
                    place: place + 1,
                })
            }
            Err(shut) => Err(shut),
        }
    }

    /// Puts a token of that value behind a place, with a gap between. Full comes exactly where it
    /// would be over a limit, and Cycle where its bounds would have no schedule; then nothing has
    /// changed.
    pub fn insert(&mut self, sv: SvId, place: u32, value: ValId) -> Result<TokenRef, Shut>
        requires { MayDoNow self.old (Inserted sv place value) }
        ensures does { OnOk result (Does (Inserted sv place value) self.old self.new) }
        ensures token { IfOk result (λ t. t ≡ record { sv = sv; place = suc place }) }
        ensures kept { OnOk result (IsOpen self.new) }
        ensures same { OnErr result (self.new ≡ self.old) }
        ensures full { has_room self.old.begun (partial_of self.old) ≡ false → result ≡ Err Full }
        ensures shut { IfErr result (λ e. IfCycleOrFull e (WouldShut (Inserted sv place value) self.old) (has_room self.old.begun (partial_of self.old) ≡ false)) }
    {
        if !self.has_room() {
            return Err(Shut::Full);
        }
        let start = self.draft.board.points;
        let held = Held {
            kind: Kind { sv, value },
            start,
            stop: start + 1,
        };
        let part = Part::Inserted { sv, place, value };
        self.put(
            part,
            sv,
            place,
            Cell {
                held,
                joined: false,
            },
            2,
        )
    }

    /// Puts a token of that value behind a place, joined to the token there. Full comes exactly
    /// where it would be over a limit, and Cycle where its bounds would have no schedule; then
    /// nothing has changed.
    pub fn follow(&mut self, sv: SvId, place: u32, value: ValId) -> Result<TokenRef, Shut>
        requires { MayDoNow self.old (Followed sv place value) }
        ensures does { OnOk result (Does (Followed sv place value) self.old self.new) }
        ensures token { IfOk result (λ t. t ≡ record { sv = sv; place = suc place }) }
        ensures kept { OnOk result (IsOpen self.new) }
        ensures same { OnErr result (self.new ≡ self.old) }
        ensures full { has_room self.old.begun (partial_of self.old) ≡ false → result ≡ Err Full }
        ensures shut { IfErr result (λ e. IfCycleOrFull e (WouldShut (Followed sv place value) self.old) (has_room self.old.begun (partial_of self.old) ≡ false)) }
    {
        if !self.has_room() {
            return Err(Shut::Full);
        }
        let before = self.draft.board.token(TokenRef { sv, place });
        let held = Held {
            kind: Kind { sv, value },
            start: before.held.stop,
            stop: self.draft.board.points,
        };
        let part = Part::Followed { sv, place, value };
        self.put(part, sv, place, Cell { held, joined: true }, 1)
    }

    /// Closes the gap behind a place. On a refusal nothing has changed; Cycle comes exactly where
    /// the bounds would have no schedule.
    pub fn join(&mut self, sv: SvId, place: u32) -> Result<(), Shut>
        requires { MayDoNow self.old (Joined sv place) }
        ensures does { OnOk result (Does (Joined sv place) self.old self.new) }
        ensures kept { OnOk result (IsOpen self.new) }
        ensures same { OnErr result (self.new ≡ self.old) }
        ensures shut { IfErr result (λ e. IfCycle e (WouldShut (Joined sv place) self.old)) }
    {
        self.draft.make_join(sv, place)?;
        match self.draft.join(sv, place) {
            Ok(()) => {
                self.stays_open();
                Ok(())
            }
            Err(shut) => Err(shut),
        }
    }

    /// Lets no further token come on a timeline. On a refusal nothing has changed; Cycle comes
    /// exactly where the bounds would have no schedule.
    pub fn finish(&mut self, sv: SvId) -> Result<(), Shut>
        requires { MayDoNow self.old (Finished sv) }
        ensures does { OnOk result (Does (Finished sv) self.old self.new) }
        ensures kept { OnOk result (IsOpen self.new) }
        ensures same { OnErr result (self.new ≡ self.old) }
        ensures shut { IfErr result (λ e. IfCycle e (WouldShut (Finished sv) self.old)) }
    {
        self.draft.make_finish(sv, self.tick)?;
        match self.draft.finish(sv) {
            Ok(()) => {
                self.stays_open();
                Ok(())
            }
            Err(shut) => Err(shut),
        }
    }
}
