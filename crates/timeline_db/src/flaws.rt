ghost use Rattle.std.specs.Prelude.{◌≡◌, ◌<◌, ◌^◌, [], true, ℕ, None, Some, length, map, option_map, slice_get, IfNone, IfSome};
ghost use Rattle.search_tree.specs.Flaws.{flat_map_from, goal_flaws, open_goals, open_needs, open_slots, slots};
ghost use Rattle.search_tree.specs.declared.flaw.Flaw.TheVariants.{Gap as GapFlaw, Goal as GoalFlaw, Need as NeedFlaw};
ghost use Rattle.timeline_db.specs.Heads.{IsHead, MaybeHead};
ghost use Rattle.timeline_db.specs.Lines.{Shown, row_of};
ghost use Rattle.timeline_db.specs.Plannings.{partial_of};
ghost use Rattle.timeline_db.specs.Tracked.{IsLine};
ghost use Rattle.timeline_db.specs.Waiting.{IsFirstWaitingIn};
ghost use Rattle.timeline_db.specs.declared.token.Token.{Token};

use crate::{Db, Line};
use hs_base::{SvId, TokenRef};
use search_tree::Held;

/// The number of the first goal that has no token.
fn first_unmet(goals: &[Option<Held>]) -> Option<u32>
    requires { length goals.now < 2 ^ 32 }
    ensures { MaybeHead (flat_map_from goal_flaws 0 goals.now) (option_map GoalFlaw result) }
{
    for (number, goal) in goals.iter().enumerate() {
        if goal.is_none() {
            return Some(number as u32);
        }
    }
    None
}

/// The first token with an open need, by variable and place, and that need.
fn first_waiting(lines: &[Line]) -> Option<(TokenRef, u32)>
    requires lines { length lines.now < 2 ^ 32 }
    requires tokens { (v : ℕ) (s : Shown) → slice_get lines.now v ≡ Some s → length s.tokens < 2 ^ 32 }
    ensures { IsFirstWaitingIn lines.now result }
{
    for (sv, line) in lines.iter().enumerate() {
        if let Some(place) = line.first_waiting() {
            let token = TokenRef {
                sv: SvId(sv as u32),
                place: place as u32,
            };
            return Some((token, line.tokens()[place].unmet));
        }
    }
    None
}

/// The place before the first gap of a timeline, or that of its last token where its end is open.
fn first_slot(line: &Line) -> Option<u32>
    requires line { IsLine line.now }
    requires some { (0 < length line.now.tokens) × (length line.now.tokens < 2 ^ 32) }
    requires first { (t : Token) → slice_get line.now.tokens 0 ≡ Some t → t.joined ≡ true }
    ensures { MaybeHead (slots (row_of line.now)) result }
{
    match line.first_gap() {
        Some(place) => Some(place as u32 - 1),
        None if line.is_finished() => None,
        None => Some(line.len() as u32 - 1),
    }
}

/// The first gap or open end, by variable and by the place of the token before it.
fn first_slot_of(lines: &[Line]) -> Option<(SvId, u32)>
    requires few { length lines.now < 2 ^ 32 }
    requires lines { (v : ℕ) (s : Shown) → slice_get lines.now v ≡ Some s → IsLine s }
    requires tokens { (v : ℕ) (s : Shown) → slice_get lines.now v ≡ Some s → (0 < length s.tokens) × (length s.tokens < 2 ^ 32) }
    requires first { (v : ℕ) (s : Shown) (t : Token) → slice_get lines.now v ≡ Some s → slice_get s.tokens 0 ≡ Some t → t.joined ≡ true }
    ensures { MaybeHead (flat_map_from (λ v r. map (GapFlaw (record { 0 = v })) (slots r)) 0 (map row_of lines.now)) (option_map (λ s. GapFlaw s.0 s.1) result) }
{
    for (sv, line) in lines.iter().enumerate() {
        if let Some(place) = first_slot(line) {
            return Some((SvId(sv as u32), place));
        }
    }
    None
}

impl Db {
    /// The first goal that has no token.
    pub fn open_goal(&self) -> Option<u32>
        ensures some { IfSome result (λ i. IsHead (open_goals (partial_of self.now)) (GoalFlaw i)) }
        ensures none { IfNone result (open_goals (partial_of self.now) ≡ []) }
    {
        first_unmet(&self.draft.board.goals)
    }

    /// The first need, by variable, place and number, that is neither served nor left to a later
    /// plan.
    pub fn open_need(&self) -> Option<(TokenRef, u32)>
        ensures some { IfSome result (λ n. IsHead (open_needs self.now.mission self.now.begun (partial_of self.now)) (NeedFlaw n.0 n.1)) }
        ensures none { IfNone result (open_needs self.now.mission self.now.begun (partial_of self.now) ≡ []) }
    {
        first_waiting(&self.draft.board.lines)
    }

    /// The first gap or open end, by variable and by the place of the token before it.
    pub fn open_slot(&self) -> Option<(SvId, u32)>
        ensures some { IfSome result (λ s. IsHead (open_slots (partial_of self.now)) (GapFlaw s.0 s.1)) }
        ensures none { IfNone result (open_slots (partial_of self.now) ≡ []) }
    {
        first_slot_of(&self.draft.board.lines)
    }
}
