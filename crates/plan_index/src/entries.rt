ghost use Rattle.std.specs.Prelude.{◌≡◌, ℕ, ◌+◌, ◌-◌, ◌^◌, ◌<◌, false, [], length, get_or, slice_get, None, vec_len, All, IfOk, OnOk};
ghost use Rattle.plan_index.specs.Contents.{contents_of, extended};
ghost use Rattle.plan_index.specs.Lines.{row_of};
ghost use Rattle.plan_index.specs.Entered.{contents, IsIndex, AreKept, HaveRoom};

use crate::growing::{add_horizon, add_times, add_tokens};
use crate::placed::{Timeline, reserve_lines};
use crate::{PlacedToken, PointName};
use hs_base::{Extension, Kind, Memory, PointId, SvId, Time, TokenRef};
use std::alloc::Global;

/// The points of a plan by number, and their numbers by name.
#[derive(Debug, Drop)]
pub(crate) struct Entries {
    pub names: Vec<PointName>,
    pub horizons: Vec<PointId>,
    pub tokens: Vec<Kind>,
    pub lines: Vec<Timeline>,
    pub fixed: Vec<Time>,
    /// Whether a point is fixed; a point past the end isn't.
    pub flags: Vec<bool>,
}

/// Makes a flag for each point that has a time.
fn reserve_flags(flags: &mut Vec<bool>, times: &[Time]) -> Result<(), Memory>
    ensures kept { (x : ℕ) → get_or flags.new.items x false ≡ get_or flags.old.items x false }
    ensures there { OnOk result (All (λ t. t.point.0 < vec_len flags.new) times.now) }
{
    let mut many = flags.len();
    for time in times {
        many = many.max(time.point.0 as usize + 1);
    }
    flags.resize(many, false)?;
    Ok(())
}

impl Entries {
    /// The entries of the plan without extension.
    pub fn new(alloc: Global) -> Result<Entries, Memory>
        ensures index { IfOk result IsIndex }
        ensures contents { IfOk result (λ s. contents s ≡ contents_of []) }
    {
        let mut names = Vec::new(alloc);
        names.push(PointName::Origin)?;
        Ok(Entries {
            names,
            horizons: Vec::new(alloc),
            tokens: Vec::new(alloc),
            lines: Vec::new(alloc),
            fixed: Vec::new(alloc),
            flags: Vec::new(alloc),
        })
    }

    /// Makes room for the extension's entries.
    pub fn reserve(&mut self, alloc: Global, extension: &Extension) -> Result<(), Memory>
        ensures kept { AreKept self.old self.new }
        ensures room { OnOk result (HaveRoom self.new extension.now) }
    {
        let tokens = extension.tokens.as_slice();
        let times = extension.fixed.as_slice();
        self.names.reserve(tokens.len() + 1)?;
        self.horizons.reserve(1)?;
        self.tokens.reserve(tokens.len())?;
        self.fixed.reserve(times.len())?;
        reserve_lines(alloc, &mut self.lines, tokens)?;
        reserve_flags(&mut self.flags, times)?;
        Ok(())
    }

    /// Adds the extension's entries.
    pub fn add(&mut self, extension: &Extension)
        requires room { HaveRoom self.old extension.now }
        requires index { IsIndex self.old }
        requires small { length self.old.names.items + length extension.now.tokens + 1 < 2 ^ 32 }
        ensures index { IsIndex self.new }
        ensures contents { contents self.new ≡ extended (contents self.old) extension.now }
    {
        add_horizon(&mut self.names, &mut self.horizons);
        let tokens = extension.tokens.as_slice();
        add_tokens(&mut self.names, &mut self.tokens, &mut self.lines, tokens);
        add_times(&mut self.fixed, &mut self.flags, extension.fixed.as_slice());
    }

    /// The tokens of a variable.
    pub fn line(&self, sv: SvId) -> &[PlacedToken]
        ensures { result.now ≡ row_of self.now.lines.items sv.0 }
    {
        match self.lines.get(sv.0 as usize) {
            Some(line) => line.tokens.as_slice(),
            None => &[],
        }
    }

    /// The token of that name.
    pub fn placed(&self, token: TokenRef) -> Option<PlacedToken>
        ensures { result ≡ slice_get (row_of self.now.lines.items token.sv.0) token.place }
    {
        self.line(token.sv).get(token.place as usize).copied()
    }

    /// The point of the horizon with this number, counted from 1.
    pub fn mark(&self, number: u32) -> Option<PointId>
        ensures some { 0 < number → result ≡ slice_get self.now.horizons.items (number - 1) }
        ensures none { number ≡ 0 → result ≡ None }
    {
        if number == 0 {
            return None;
        }
        self.horizons.get(number as usize - 1).copied()
    }

    /// The flag of a point.
    pub fn flag(&self, point: PointId) -> bool
        ensures { result ≡ get_or self.now.flags.items point.0 false }
    {
        match self.flags.get(point.0 as usize) {
            Some(flag) => *flag,
            None => false,
        }
    }
}
