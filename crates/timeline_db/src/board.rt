ghost use Rattle.std.specs.Prelude.{◌≡◌, suc, ◌+◌, ◌<◌, ◌≤◌, ◌^◌, ◌&&◌, ◌||◌, nat_eq, length, OnErr, OnOk};
ghost use Rattle.std.specs.List.{list_any};
ghost use Rattle.timeline_db.specs.Boards.{ChangesRow, HasPlace, HasToken, Puts, TakesOut, line_at, token_of};
ghost use Rattle.timeline_db.specs.Lines.{with_joined};
ghost use Rattle.timeline_db.specs.Serving.{IsFirstUnmet, is_settled, is_served_at};
ghost use Rattle.timeline_db.specs.Settling.{Reopens, Settles};

use crate::line::Line;
use crate::lookups::is_claimed;
use crate::token::Token;
use hs_base::{Extension, Memory, SvId, TokenRef};
use search_tree::{Backing, Deferral, Held};

/// The partial plan itself: rows, supports, goal tokens and deferred needs, and what is counted of
/// them.
#[derive(Drop)]
pub(crate) struct Board {
    pub lines: Vec<Line>,
    pub supports: Vec<Backing>,
    pub goals: Vec<Option<Held>>,
    pub deferred: Vec<Deferral>,
    /// The number of points.
    pub points: u32,
    /// The number of new tokens.
    pub added: usize,
    /// The number of all tokens.
    pub total: usize,
}

/// Whether one of the supports is for the need of the token that ends there.
fn is_backed(supports: &[Backing], stop: u32, need: u32) -> bool
    ensures { result ≡ list_any (λ s. nat_eq s.token.stop stop && nat_eq s.need need) supports.now }
{
    supports.iter().any(|backing| backing.token.stop == stop && backing.need == need)
}

/// Whether the need of the token that ends there is left to a later plan.
fn is_left(deferred: &[Deferral], stop: u32, need: u32) -> bool
    ensures { result ≡ list_any (λ d. nat_eq d.stop stop && nat_eq d.need need) deferred.now }
{
    deferred
        .iter()
        .any(|deferral| deferral.stop == stop && deferral.need == need)
}

impl Board {
    /// The token of that name.
    pub fn token(&self, name: TokenRef) -> Token
        requires { HasToken self.now name }
        ensures { result ≡ token_of self.now name }
    {
        self.lines[name.sv.0 as usize].tokens()[name.place as usize]
    }

    /// Puts a new token behind that place. After want of memory nothing has changed.
    pub fn put(&mut self, sv: SvId, place: u32, token: Token, grown: u32) -> Result<(), Memory>
        requires place { HasPlace self.old sv.0 place }
        requires points { self.old.points + grown < 2 ^ 32 }
        requires added { self.old.added + 1 < 2 ^ 64 }
        requires total { self.old.total + 1 < 2 ^ 64 }
        ensures put { OnOk result (Puts sv.0 place token grown self.old self.new) }
        ensures err { OnErr result (ChangesRow sv.0 (line_at self.old sv.0) self.old self.new) }
    {
        self.lines[sv.0 as usize].put(place as usize + 1, token)?;
        self.points += grown;
        self.added += 1;
        self.total += 1;
        Ok(())
    }

    /// Takes the new token behind that place out.
    pub fn take_out(&mut self, sv: SvId, place: u32, grown: u32)
        requires row { sv.0 < length self.old.lines.items }
        requires place { suc place < length (line_at self.old sv.0).tokens }
        requires points { grown ≤ self.old.points }
        requires added { 0 < self.old.added }
        requires total { 0 < self.old.total }
        ensures { TakesOut sv.0 place grown self.old self.new }
    {
        self.lines[sv.0 as usize].take_out(place as usize + 1);
        self.points -= grown;
        self.added -= 1;
        self.total -= 1;
    }

    /// Joins the token behind that place to the one there, or puts a gap between them.
    pub fn set_joined(&mut self, sv: SvId, place: u32, joined: bool)
        requires row { sv.0 < length self.old.lines.items }
        requires place { suc place < length (line_at self.old sv.0).tokens }
        ensures { ChangesRow sv.0 (with_joined (suc place) joined (line_at self.old sv.0)) self.old self.new }
    {
        self.lines[sv.0 as usize].set_joined(place as usize + 1, joined);
    }

    /// Closes or opens the end of a timeline.
    pub fn set_finished(&mut self, sv: SvId, finished: bool)
        requires { sv.0 < length self.old.lines.items }
        ensures { ChangesRow sv.0 (record (line_at self.old sv.0) { finished = finished }) self.old self.new }
    {
        self.lines[sv.0 as usize].set_finished(finished);
    }

    /// Whether this partial plan serves the need of the token that ends there, or leaves it to a
    /// later one.
    fn settles(&self, stop: u32, need: u32) -> bool
        ensures { result ≡ is_settled self.now stop need }
    {
        is_backed(&self.supports, stop, need) || is_left(&self.deferred, stop, need)
    }

    /// Whether the need of a token is served, or left to a later plan.
    fn is_served(&self, base: &[Extension], name: TokenRef, stop: u32, need: u32) -> bool
        requires { name.sv.0 < length self.now.lines.items }
        ensures { result ≡ is_served_at base.now self.now name stop need }
    {
        self.settles(stop, need)
            || ((name.place as usize) < self.lines[name.sv.0 as usize].given()
                && is_claimed(base, name, need))
    }

    /// The first need of a token from that one on that is neither served nor left, or their number.
    pub fn first_unmet(&self, base: &[Extension], name: TokenRef, from: u32) -> u32
        requires { HasToken self.now name }
        ensures { IsFirstUnmet base.now self.now name from result }
    {
        let token = self.token(name);
        for need in from..token.needs {
            if !self.is_served(base, name, token.held.stop, need) {
                return need;
            }
        }
        token.needs.max(from)
    }

    /// Notes that the need of a token is settled now.
    pub fn settle(&mut self, base: &[Extension], name: TokenRef, need: u32)
        requires token { HasToken self.old name }
        requires need { need < (token_of self.old name).needs }
        ensures { Settles base.now name need self.old self.new }
    {
        if self.token(name).unmet == need {
            let unmet = self.first_unmet(base, name, need + 1);
            self.lines[name.sv.0 as usize].set_unmet(name.place as usize, unmet);
        }
    }

    /// Notes that the need of a token is open again.
    pub fn reopen(&mut self, name: TokenRef, need: u32)
        requires { HasToken self.old name }
        ensures { Reopens name need self.old self.new }
    {
        if need < self.token(name).unmet {
            self.lines[name.sv.0 as usize].set_unmet(name.place as usize, need);
        }
    }
}
