ghost use Rattle.std.specs.Prelude.{◌≡◌, ◌+◌, ◌-◌, ◌<◌, ◌≤◌, [], false, drop, length, insert, remove, set, OnOk, OnErr};
ghost use Rattle.timeline_db.specs.Lines.{with_joined, with_unmet, with_needs, how_many, is_waiting, is_gap, end_of, IsFirstOf, PushesGiven};

use crate::Token;
use hs_base::{Kind, Memory};
use search_tree::Held;
use std::alloc::Global;
use std::marker::Model;

/// The timeline of a variable: the tokens of the plan that is extended, then new ones.
#[derive(Debug, Drop)]
pub struct Line {
    tokens: Vec<Token>,
    /// How many are of the plan that is extended.
    given: usize,
    /// How many stand behind a gap.
    gaps: usize,
    /// How many have an open need.
    waiting: usize,
    /// Whether no token may come behind the last one.
    finished: bool,
    ghost gaps_counted: { gaps ≡ how_many is_gap tokens.items },
    ghost waiting_counted: { waiting ≡ how_many is_waiting tokens.items },
}

impl Model for Line {
    ghost use Rattle.timeline_db.specs.Lines.{Shown};

    ghost Value = { Shown };

    ghost view = { λ line. record { tokens = line.tokens.items; given = line.given; finished = line.finished } };
}

impl Line {
    /// The timeline without token.
    pub(crate) fn new(alloc: Global) -> Line
        ensures { result ≡ record { tokens = []; given = 0; finished = false } }
    {
        Line {
            tokens: Vec::new(alloc),
            given: 0,
            gaps: 0,
            waiting: 0,
            finished: false,
        }
    }

    /// The number of tokens.
    pub fn len(&self) -> usize
        ensures { result ≡ length self.now.tokens }
    {
        self.tokens.len()
    }

    /// The tokens, by place.
    pub fn tokens(&self) -> &[Token]
        ensures { result.now ≡ self.now.tokens }
    {
        self.tokens.as_slice()
    }

    /// How many are of the plan that is extended.
    pub fn given(&self) -> usize
        ensures { result ≡ self.now.given }
    {
        self.given
    }

    /// The new tokens.
    pub(crate) fn added(&self) -> &[Token]
        requires { self.now.given ≤ length self.now.tokens }
        ensures { result.now ≡ drop self.now.given self.now.tokens }
    {
        &self.tokens.as_slice()[self.given..]
    }

    /// Whether no token may come behind the last one.
    pub fn is_finished(&self) -> bool
        ensures { result ≡ self.now.finished }
    {
        self.finished
    }

    /// Puts a token at a place, before the one that is there.
    pub(crate) fn put(&mut self, place: usize, token: Token) -> Result<(), Memory>
        requires { place ≤ length self.old.tokens }
        ensures put { OnOk result (self.new ≡ record self.old { tokens = insert self.old.tokens place token }) }
        ensures err { OnErr result (self.new ≡ self.old) }
    {
        self.tokens.insert(place, token)?;
        self.gaps += token.gap();
        self.waiting += token.wait();
        Ok(())
    }

    /// Takes the token of that place out.
    pub(crate) fn take_out(&mut self, place: usize)
        requires { place < length self.old.tokens }
        ensures { self.new ≡ record self.old { tokens = remove self.old.tokens place } }
    {
        let token = self.tokens.remove(place);
        self.gaps -= token.gap();
        self.waiting -= token.wait();
    }

    /// Puts another token in the place of one.
    fn replace(&mut self, place: usize, token: Token)
        requires { place < length self.old.tokens }
        ensures { self.new ≡ record self.old { tokens = set self.old.tokens place token } }
    {
        let had = self.tokens[place];
        self.tokens[place] = token;
        self.gaps -= had.gap();
        self.gaps += token.gap();
        self.waiting -= had.wait();
        self.waiting += token.wait();
    }

    /// Joins the token of that place to the one before it, or puts a gap between them.
    pub(crate) fn set_joined(&mut self, place: usize, joined: bool)
        requires { place < length self.old.tokens }
        ensures { self.new ≡ with_joined place joined self.old }
    {
        let had = self.tokens[place];
        self.replace(place, Token { joined, ..had });
    }

    /// Notes the first open need of the token of that place.
    pub(crate) fn set_unmet(&mut self, place: usize, unmet: u32)
        requires { place < length self.old.tokens }
        ensures { self.new ≡ with_unmet place unmet self.old }
    {
        let had = self.tokens[place];
        self.replace(place, Token { unmet, ..had });
    }

    /// Notes how many needs the token of that place has.
    pub(crate) fn set_needs(&mut self, place: usize, needs: u32)
        requires { place < length self.old.tokens }
        ensures { self.new ≡ with_needs place needs self.old }
    {
        let had = self.tokens[place];
        self.replace(place, Token { needs, ..had });
    }

    /// Closes or opens the end.
    pub(crate) fn set_finished(&mut self, finished: bool)
        ensures { self.new ≡ record self.old { finished = finished } }
    {
        self.finished = finished;
    }

    /// The end of the last token, or Z.
    pub(crate) fn end(&self) -> u32
        ensures { result ≡ end_of self.now.tokens }
    {
        match self.tokens.last() {
            Some(last) => last.held.stop,
            None => 0,
        }
    }

    /// Adds a token of the plan that is extended, which ends at that point.
    pub(crate) fn push_given(&mut self, kind: Kind, stop: u32) -> Result<(), Memory>
        requires { self.old.given ≡ length self.old.tokens }
        ensures { OnOk result (PushesGiven kind stop self.old self.new) }
    {
        let start = self.end();
        self.tokens.push(Token {
            held: Held { kind, start, stop },
            joined: true,
            needs: 0,
            unmet: 0,
        })?;
        self.given += 1;
        Ok(())
    }

    /// The first place whose token has an open need.
    pub(crate) fn first_waiting(&self) -> Option<usize>
        ensures { IsFirstOf is_waiting self.now.tokens result }
    {
        if self.waiting == 0 {
            return None;
        }
        for place in 0..self.tokens.len() {
            if self.tokens[place].unmet < self.tokens[place].needs {
                return Some(place);
            }
        }
        None
    }

    /// The first place whose token stands behind a gap.
    pub(crate) fn first_gap(&self) -> Option<usize>
        ensures { IsFirstOf is_gap self.now.tokens result }
    {
        if self.gaps == 0 {
            return None;
        }
        for place in 0..self.tokens.len() {
            if !self.tokens[place].joined {
                return Some(place);
            }
        }
        None
    }
}
