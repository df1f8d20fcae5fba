ghost use Rattle.std.specs.Prelude.{◌≡◌, ℕ, ◌+◌, ◌-◌, ◌^◌, ◌<◌, List, [], ◌∷◌, ◌++◌, length, map, slice_get, option_map, Some, IfOk, OnOk, OnErr};
ghost use Rattle.hs_base.specs.declared.plan.Extension.{Extension};
ghost use Rattle.hs_base.specs.Points.{horizon, ending, place_of, refs_after, timeline_of, is_observed, start, count};
ghost use Rattle.hs_base.specs.Bounds.{is_fixed};
ghost use Rattle.hs_base.specs.Checked.{free_points};
ghost use Rattle.plan_index.specs.Contents.{contents_of, extended, end_of, start_of};
ghost use Rattle.plan_index.specs.Lines.{kind_in};
ghost use Rattle.plan_index.specs.Named.{named, has_time};

use crate::entries::Entries;
use crate::lookups::{count_of, is_ended_by_device};
use crate::{PlacedToken, PointName};
use hs_base::{Extension, Kind, Memory, Mission, PointId, SvId, Time, TokenRef};
use std::alloc::Global;
use std::marker::Model;

/// The points of a plan by number, and their numbers by name. Contracts see what is to know of the
/// plan's extensions.
#[derive(Debug, Drop)]
pub struct PlanIndex {
    alloc: Global,
    entries: Entries,
}

impl Model for PlanIndex {
    ghost use Rattle.plan_index.specs.Contents.{Contents};

    ghost Value = { Contents };

    ghost use Rattle.plan_index.specs.Entered.{contents, IsIndex};

    ghost view = { λ s. contents s.entries };

    ghost invariant = { λ s. IsIndex s.entries };
}

impl PlanIndex {
    /// The index of the plan without extension.
    pub fn new(alloc: Global) -> Result<PlanIndex, Memory>
        ensures { IfOk result (λ index. index ≡ contents_of []) }
    {
        let entries = Entries::new(alloc)?;
        Ok(PlanIndex { alloc, entries })
    }

    /// The index of the plan with these extensions.
    pub fn of(alloc: Global, extensions: &[Extension]) -> Result<PlanIndex, Memory>
        requires { count extensions.now < 2 ^ 32 }
        ensures { IfOk result (λ index. index ≡ contents_of extensions.now) }
    {
        let mut index = PlanIndex::new(alloc)?;
        for extension in extensions {
            index.extend(extension)?;
        }
        Ok(index)
    }

    /// Takes in a further extension. After want of memory the index is unchanged.
    pub fn extend(&mut self, extension: &Extension) -> Result<(), Memory>
        requires small { length self.old.points + length extension.now.tokens + 1 < 2 ^ 32 }
        ensures ok { OnOk result (self.new ≡ extended self.old extension.now) }
        ensures plan { (es : List Extension) → self.old ≡ contents_of es → OnOk result (self.new ≡ contents_of (es ++ extension.now ∷ [])) }
        ensures err { OnErr result (self.new ≡ self.old) }
    {
        self.entries.reserve(self.alloc, extension)?;
        self.entries.add(extension);
        Ok(())
    }

    /// The number of points.
    pub fn points(&self) -> usize
        ensures { result ≡ length self.now.points }
    {
        self.entries.names.len()
    }

    /// The number of extensions, each of which has a horizon.
    pub fn horizons(&self) -> usize
        ensures { result ≡ self.now.horizons }
    {
        self.entries.horizons.len()
    }

    /// The names of the points, in the order of their numbers.
    pub fn names(&self) -> &[PointName]
        ensures { map named result.now ≡ self.now.points }
    {
        self.entries.names.as_slice()
    }

    /// The tokens, in the order of the points that end them.
    pub fn tokens(&self) -> &[Kind]
        ensures { result.now ≡ self.now.tokens }
    {
        self.entries.tokens.as_slice()
    }

    /// The fixed points with their times, in the order in which they were fixed.
    pub fn fixed(&self) -> &[Time]
        ensures { result.now ≡ self.now.fixed }
    {
        self.entries.fixed.as_slice()
    }

    /// The tokens of a variable, with the points that end them.
    pub fn timeline(&self, sv: SvId) -> &[PlacedToken]
        ensures kinds { map (kind_in sv.0) result.now ≡ timeline_of self.now.tokens sv.0 }
        ensures ends { (i : ℕ) (p : _) → slice_get result.now i ≡ Some p → place_of (ending sv.0 i) self.now.points ≡ p.end.0 }
    {
        self.entries.line(sv)
    }

    /// The kind of a token.
    pub fn token(&self, token: TokenRef) -> Option<Kind>
        ensures { result ≡ slice_get (timeline_of self.now.tokens token.sv.0) token.place }
    {
        let placed = self.timeline(token.sv).get(token.place as usize)?;
        Some(Kind {
            sv: token.sv,
            value: placed.value,
        })
    }

    /// The point that ends a token, or the number of points where there is no such token.
    pub fn end(&self, token: TokenRef) -> PointId
        ensures { result.0 ≡ place_of (end_of token) self.now.points }
    {
        match self.entries.placed(token) {
            Some(placed) => placed.end,
            None => PointId(self.entries.names.len() as u32),
        }
    }

    /// The point that starts a token: Z, or the end of the token before it.
    pub fn start(&self, token: TokenRef) -> PointId
        ensures start { result.0 ≡ start_of self.now.points token }
        ensures plan { (es : List Extension) → self.now ≡ contents_of es → result.0 ≡ start es token }
    {
        if token.place == 0 {
            return PointId(0);
        }
        self.end(TokenRef {
            sv: token.sv,
            place: token.place - 1,
        })
    }

    /// The point of the horizon with this number, counted from 1, or the number of points where
    /// there is no such horizon.
    pub fn horizon(&self, number: u32) -> PointId
        ensures { result.0 ≡ place_of (horizon number) self.now.points }
    {
        match self.entries.mark(number) {
            Some(point) => point,
            None => PointId(self.entries.names.len() as u32),
        }
    }

    /// The name of a point; None where the plan doesn't have it.
    pub fn name(&self, point: PointId) -> Option<PointName>
        ensures { option_map named result ≡ slice_get self.now.points point.0 }
    {
        self.entries.names.get(point.0 as usize).copied()
    }

    /// The name of a point of the plan with a further extension, which isn't taken in; None where
    /// that plan doesn't have it.
    pub fn name_with(&self, extension: &Extension, point: PointId) -> Option<PointName>
        ensures { option_map named result ≡ slice_get (extended self.now extension.now).points point.0 }
    {
        let number = point.0 as usize;
        let points = self.points();
        if number < points {
            return self.name(point);
        }
        if number == points {
            return Some(PointName::Horizon(self.entries.horizons.len() as u32 + 1));
        }
        self.new_end(extension.tokens.as_slice(), number - points - 1)
    }

    /// The name of the end of a further token, by its number among these.
    fn new_end(&self, tokens: &[Kind], i: usize) -> Option<PointName>
        requires { length self.now.points + i < 2 ^ 32 }
        ensures { option_map named result ≡ slice_get (map end_of (refs_after self.now.tokens tokens.now)) i }
    {
        if i >= tokens.len() {
            return None;
        }
        let sv = tokens[i].sv;
        let before = self.entries.line(sv).len();
        let earlier = count_of(&tokens[..i], sv.0);
        Some(PointName::End(TokenRef {
            sv,
            place: (before + earlier) as u32,
        }))
    }

    /// Whether the point is fixed.
    pub fn is_fixed(&self, point: PointId) -> bool
        ensures fixed { result ≡ has_time self.now.fixed point.0 }
        ensures plan { (es : List Extension) → self.now ≡ contents_of es → result ≡ is_fixed es point.0 }
    {
        self.entries.flag(point)
    }

    /// The number of points that aren't fixed, where each is fixed at most once.
    pub fn free_points(&self) -> usize
        ensures { (es : List Extension) → self.now ≡ contents_of es → result ≡ free_points es }
    {
        self.entries
            .names
            .len()
            .saturating_sub(self.entries.fixed.len())
    }

    /// Whether the point is observed: a device ends its token, and tells it.
    pub fn is_observed(&self, mission: &Mission, point: PointId) -> bool
        ensures { (es : List Extension) → self.now ≡ contents_of es → result ≡ is_observed mission.now es point.0 }
    {
        let Some(PointName::End(token)) = self.name(point) else {
            return false;
        };
        match self.token(token) {
            Some(kind) => is_ended_by_device(mission, kind),
            None => false,
        }
    }
}
