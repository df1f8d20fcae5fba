ghost use Rattle.std.specs.Prelude.{◌≡◌, ℕ, suc, ◌+◌, ◌<◌, ◌≤◌, ◌^◌, false, List, [], ◌∷◌, ◌++◌, None, Some, drop, flat_map, length, replicate, slice_get, IfOk, OnOk};
ghost use Rattle.hs_base.specs.Bounds.{goals_of};
ghost use Rattle.plan_check.specs.Seen.{seen};
ghost use Rattle.search_tree.specs.Begun.{Begun, begun_of};
ghost use Rattle.search_tree.specs.Outset.{MayBegin};
ghost use Rattle.search_tree.specs.Partial.{begin};
ghost use Rattle.timeline_db.specs.Boards.{pictured};
ghost use Rattle.timeline_db.specs.Databases.{IsCounted};
ghost use Rattle.timeline_db.specs.Laying.{AreFirst, AreLaid, AreOutset, IsFirstUnclaimed, NotesAll, NotesLast, first_token, laid_line};
ghost use Rattle.timeline_db.specs.Lines.{Shown};

use crate::board::Board;
use crate::line::Line;
use crate::lookups::{count_needs, is_claimed};
use crate::token::Token;
use hs_base::{Extension, Kind, Memory, Mission, SvId, TokenRef, Var};
use plan_check::{CheckedPlan, Snapshot};
use plan_index::PlanIndex;
use search_tree::Held;
use std::alloc::Global;

/// The timeline of a variable with the tokens of a plan.
fn line_of(alloc: Global, index: &PlanIndex, sv: SvId) -> Result<Line, Memory>
    ensures { IfOk result (λ line. line ≡ laid_line index.now.tokens index.now.points sv.0) }
{
    let mut line = Line::new(alloc);
    let row = index.timeline(sv);
    for placed in row {
        let kind = Kind {
            sv,
            value: placed.value,
        };
        line.push_given(kind, placed.end.0)?;
    }
    Ok(line)
}

/// The timelines of so many variables with the tokens of a plan.
fn lines_of(alloc: Global, index: &PlanIndex, vars: usize) -> Result<Vec<Line>, Memory>
    requires { vars < 2 ^ 32 }
    ensures { IfOk result (λ lines. AreLaid vars index.now.tokens index.now.points lines.items) }
{
    let mut lines = Vec::with_capacity(alloc, vars)?;
    for sv in 0..vars {
        lines.push(line_of(alloc, index, SvId(sv as u32))?)?;
    }
    Ok(lines)
}

/// The first of so many needs of a token that no support of the plan is for, or their number.
fn first_unclaimed(extensions: &[Extension], name: TokenRef, needs: u32) -> u32
    ensures { IsFirstUnclaimed extensions.now name needs result }
{
    for need in 0..needs {
        if !is_claimed(extensions, name, need) {
            return need;
        }
    }
    needs
}

/// Notes the needs of the plan's last token on the timeline of a variable: those of the tokens
/// before it are served.
fn note_last(line: &mut Line, mission: &Mission, extensions: &[Extension], sv: u32)
    requires needs { length mission.now.needs ≤ 256 }
    requires given { line.old.given ≤ length line.old.tokens }
    requires few { line.old.given < 2 ^ 32 }
    ensures { NotesLast mission.now extensions.now sv line.old line.new }
{
    if line.given() == 0 {
        return;
    }
    let place = line.given() - 1;
    let needs = count_needs(mission, line.tokens()[place].held.kind);
    let name = TokenRef {
        sv: SvId(sv),
        place: place as u32,
    };
    line.set_needs(place, needs);
    line.set_unmet(place, first_unclaimed(extensions, name, needs));
}

/// Notes the needs of the plan's last tokens.
fn note_all(lines: &mut [Line], mission: &Mission, extensions: &[Extension])
    requires needs { length mission.now.needs ≤ 256 }
    requires given { (v : ℕ) (s : Shown) → slice_get lines.old v ≡ Some s → (s.given ≤ length s.tokens) × (s.given < 2 ^ 32) }
    requires few { length lines.old < 2 ^ 32 }
    ensures { NotesAll mission.now extensions.now lines.old lines.new }
{
    for sv in 0..lines.len() {
        note_last(&mut lines[sv], mission, extensions, sv as u32);
    }
}

/// The first token of a variable, which ends at that point.
fn first_of(mission: &Mission, sv: u32, var: &Var, stop: u32) -> Token
    requires { length mission.now.needs ≤ 256 }
    ensures { result ≡ first_token mission.now stop sv var.now }
{
    let kind = Kind {
        sv: SvId(sv),
        value: var.begin,
    };
    Token {
        held: Held {
            kind,
            start: 0,
            stop,
        },
        joined: true,
        needs: count_needs(mission, kind),
        unmet: 0,
    }
}

/// A timeline with that token.
fn line_with(alloc: Global, token: Token) -> Result<Line, Memory>
    ensures { IfOk result (λ l. l ≡ record { tokens = token ∷ []; given = 0; finished = false }) }
{
    let mut line = Line::new(alloc);
    line.put(0, token)?;
    Ok(line)
}

/// A first token of each variable, the first of which ends at that point.
fn first_lines(alloc: Global, mission: &Mission, first: u32) -> Result<Vec<Line>, Memory>
    requires needs { length mission.now.needs ≤ 256 }
    requires small { first + length mission.now.vars < 2 ^ 32 }
    ensures { IfOk result (λ lines. AreFirst mission.now first lines.items) }
{
    let mut lines = Vec::with_capacity(alloc, mission.vars.len())?;
    for (sv, var) in mission.vars.as_slice().iter().enumerate() {
        let sv = sv as u32;
        lines.push(line_with(alloc, first_of(mission, sv, var, first + sv))?)?;
    }
    Ok(lines)
}

/// The timelines with which a search begins: those of the plan, or first tokens where there is no
/// plan yet.
fn opening_lines(alloc: Global, plan: &CheckedPlan) -> Result<Vec<Line>, Memory>
    ensures { (b : Begun) → b.base ≡ plan.now.plan.extensions → IfOk result (λ lines. AreOutset plan.now.mission b lines.items) }
{
    let mission = plan.mission();
    let index = plan.index();
    if index.horizons() == 0 {
        // The points before are Z and the horizon.
        return first_lines(alloc, mission, 2);
    }
    let mut lines = lines_of(alloc, index, mission.vars.len())?;
    note_all(&mut lines, mission, plan.plan().extensions.as_slice());
    Ok(lines)
}

/// The number of tokens of timelines.
fn count_tokens(lines: &[Line]) -> usize
    requires { length (flat_map (λ s. s.tokens) lines.now) < 2 ^ 64 }
    ensures { result ≡ length (flat_map (λ s. s.tokens) lines.now) }
{
    let mut total = 0;
    for line in lines {
        total += line.len();
    }
    total
}

/// The number of new tokens of timelines.
fn count_added(lines: &[Line]) -> usize
    requires given { (v : ℕ) (s : Shown) → slice_get lines.now v ≡ Some s → s.given ≤ length s.tokens }
    requires few { length (flat_map (λ s. drop s.given s.tokens) lines.now) < 2 ^ 64 }
    ensures { result ≡ length (flat_map (λ s. drop s.given s.tokens) lines.now) }
{
    let mut added = 0;
    for line in lines {
        added += line.len() - line.given();
    }
    added
}

/// The number of goals of the horizon behind so many.
fn count_goals(mission: &Mission, horizons: usize) -> usize
    ensures { result ≡ length (goals_of mission.now (suc horizons)) }
{
    match mission.horizons.as_slice().get(horizons) {
        Some(horizon) => horizon.goals.len(),
        None => 0,
    }
}

/// So many goals without a token.
fn open_goals(alloc: Global, goals: usize) -> Result<Vec<Option<Held>>, Memory>
    ensures { IfOk result (λ v. v.items ≡ replicate goals None) }
{
    let mut open = Vec::with_capacity(alloc, goals)?;
    for _ in 0..goals {
        open.push(None)?;
    }
    Ok(open)
}

/// The board with which a search begins: the tokens of the plan, or first ones where there is no
/// plan yet.
pub(crate) fn lay_out(alloc: Global, snapshot: &Snapshot) -> Result<Board, Memory>
    requires { MayBegin snapshot.now.plan.mission (begun_of (seen snapshot.now)) }
    ensures lines { IfOk result (λ d. AreOutset snapshot.now.plan.mission (begun_of (seen snapshot.now)) d.lines.items) }
    ensures shows { IfOk result (λ d. pictured d ≡ begin snapshot.now.plan.mission (begun_of (seen snapshot.now))) }
    ensures counts { IfOk result (IsCounted (begin snapshot.now.plan.mission (begun_of (seen snapshot.now)))) }
{
    let mission = snapshot.plan.mission();
    let index = snapshot.plan.index();
    let lines = opening_lines(alloc, &snapshot.plan)?;
    let added = count_added(&lines);
    let total = count_tokens(&lines);
    Ok(Board {
        lines,
        supports: Vec::new(alloc),
        goals: open_goals(alloc, count_goals(mission, index.horizons()))?,
        deferred: Vec::new(alloc),
        points: index.points() as u32 + 1 + added as u32,
        added,
        total,
    })
}
