ghost use Rattle.std.specs.Prelude.{◌≡◌, ◌<◌, ◌≤◌, ◌^◌, ◌++◌, ◌∷◌, [], ℕ, Some, drop, flat_map, length, map, slice_get, true, IfOk, OnOk};
ghost use Rattle.hs_base.specs.Bounds.{on_some};
ghost use Rattle.search_tree.specs.Extends.{extension, place_in, ref_of, supports_at};
ghost use Rattle.search_tree.specs.Flaws.{flat_map_from};
ghost use Rattle.timeline_db.specs.Boards.{pictured};
ghost use Rattle.timeline_db.specs.Extending.{AreShort, late_supports, named_from};
ghost use Rattle.timeline_db.specs.Lines.{Shown, cell_of};
ghost use Rattle.timeline_db.specs.Plannings.{partial_of};

use crate::board::Board;
use crate::lookups::count_needs;
use crate::{Db, Line, Token};
use hs_base::{Copies, Extension, Kind, List, Memory, Mission, Support, SvId, TokenRef};
use search_tree::Held;
use std::alloc::Global;

/// The place of the token that ends at that point, or the number of tokens.
fn place_of(line: &Line, stop: u32) -> usize
    ensures { result ≡ place_in stop 0 (map cell_of line.now.tokens) }
{
    for (place, token) in line.tokens().iter().enumerate() {
        if token.held.stop == stop {
            return place;
        }
    }
    line.len()
}

/// Adds the kinds of tokens.
fn push_kinds(kinds: &mut List<Kind>, tokens: &[Token]) -> Result<(), Memory>
    ensures { OnOk result (kinds.new ≡ kinds.old ++ map (λ t. t.held.kind) tokens.now) }
{
    for token in tokens {
        kinds.push(token.held.kind)?;
    }
    Ok(())
}

/// The kinds of the new tokens of timelines.
fn new_kinds(alloc: Global, lines: &[Line]) -> Result<List<Kind>, Memory>
    requires { (v : ℕ) (s : Shown) → slice_get lines.now v ≡ Some s → s.given ≤ length s.tokens }
    ensures { IfOk result (λ kinds. kinds ≡ flat_map (λ s. map (λ t. t.held.kind) (drop s.given s.tokens)) lines.now) }
{
    let mut kinds = List::new(alloc);
    for line in lines {
        push_kinds(&mut kinds, line.added())?;
    }
    Ok(kinds)
}

impl Board {
    /// The name of a token.
    fn name_of(&self, held: Held) -> TokenRef
        requires { AreShort self.now.lines.items }
        ensures { result ≡ ref_of (pictured self.now) held }
    {
        let place = match self.lines.get(held.kind.sv.0 as usize) {
            Some(line) => place_of(line, held.stop),
            None => 0,
        };
        TokenRef {
            sv: held.kind.sv,
            place: place as u32,
        }
    }

    /// Adds the supports of a need of a token.
    fn push_supports(
        &self,
        supports: &mut List<Support>,
        name: TokenRef,
        stop: u32,
        need: u32,
    ) -> Result<(), Memory>
        requires { AreShort self.now.lines.items }
        ensures { OnOk result (supports.new ≡ supports.old ++ named_from (pictured self.now) name stop need self.now.supports.items) }
    {
        for backing in &self.supports {
            if backing.token.stop == stop && backing.need == need {
                supports.push(Support {
                    token: name,
                    need,
                    by: self.name_of(backing.by),
                })?;
            }
        }
        Ok(())
    }

    /// Adds the supports of a token, by need.
    fn push_supports_of(
        &self,
        supports: &mut List<Support>,
        mission: &Mission,
        name: TokenRef,
        held: Held,
    ) -> Result<(), Memory>
        requires lines { AreShort self.now.lines.items }
        requires needs { length mission.now.needs ≤ 256 }
        ensures { OnOk result (supports.new ≡ supports.old ++ supports_at mission.now (pictured self.now) name.sv.0 name.place (record { held = held; joined = true })) }
    {
        for need in 0..count_needs(mission, held.kind) {
            self.push_supports(supports, name, held.stop, need)?;
        }
        Ok(())
    }

    /// Adds the supports of a timeline's tokens, by place and need. Those of the plan that is
    /// extended but the last have none.
    fn push_supports_in(
        &self,
        supports: &mut List<Support>,
        mission: &Mission,
        sv: u32,
        line: &Line,
    ) -> Result<(), Memory>
        requires lines { AreShort self.now.lines.items }
        requires needs { length mission.now.needs ≤ 256 }
        requires few { length line.now.tokens < 2 ^ 32 }
        ensures { OnOk result (supports.new ≡ supports.old ++ late_supports mission.now (pictured self.now) sv line.now) }
    {
        for place in line.given().saturating_sub(1)..line.len() {
            let name = TokenRef {
                sv: SvId(sv),
                place: place as u32,
            };
            self.push_supports_of(supports, mission, name, line.tokens()[place].held)?;
        }
        Ok(())
    }

    /// The supports, by token and need.
    fn named_supports(&self, alloc: Global, mission: &Mission) -> Result<List<Support>, Memory>
        requires lines { AreShort self.now.lines.items }
        requires needs { length mission.now.needs ≤ 256 }
        requires few { length self.now.lines.items < 2 ^ 32 }
        ensures { IfOk result (λ supports. supports ≡ flat_map_from (late_supports mission.now (pictured self.now)) 0 self.now.lines.items) }
    {
        let mut supports = List::new(alloc);
        for (sv, line) in self.lines.iter().enumerate() {
            self.push_supports_in(&mut supports, mission, sv as u32, line)?;
        }
        Ok(supports)
    }

    /// The tokens of goals, by number.
    fn named_goals(&self, alloc: Global) -> Result<List<TokenRef>, Memory>
        requires { AreShort self.now.lines.items }
        ensures { IfOk result (λ goals. goals ≡ flat_map (λ o. on_some o (λ x. ref_of (pictured self.now) x ∷ [])) self.now.goals.items) }
    {
        let mut goals = List::new(alloc);
        for goal in &self.goals {
            if let Some(held) = goal {
                goals.push(self.name_of(*held))?;
            }
        }
        Ok(goals)
    }
}

impl Db {
    /// The extension that the partial plan stands for.
    pub fn extension(&self) -> Result<Extension, Memory>
        ensures { IfOk result (λ e. e ≡ extension self.now.mission self.now.begun (partial_of self.now)) }
    {
        let board = &self.draft.board;
        let mission = self.base.mission();
        Ok(Extension {
            base: self.base.plan().extensions.len() as u32,
            since: self.since,
            fixed: self.fixed.copy(self.alloc)?,
            tokens: new_kinds(self.alloc, &board.lines)?,
            supports: board.named_supports(self.alloc, mission)?,
            goals: board.named_goals(self.alloc)?,
        })
    }
}
