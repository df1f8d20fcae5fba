ghost use Rattle.std.specs.Prelude.{◌≡◌, [], ◌++◌, ◌<◌, ◌^◌, false, true, flat_map, length, map, nat_eq, IfOk, OnOk};
ghost use Rattle.std.specs.List.{AllByRecursion, list_any};
ghost use Rattle.hs_base.specs.declared.ids.ValId.{ValId};
ghost use Rattle.hs_base.specs.declared.mission.Choice.{Choice};
ghost use Rattle.search_tree.specs.Flaws.{flaws, slots_from};
ghost use Rattle.search_tree.specs.May.{IsThere};
ghost use Rattle.search_tree.specs.Partial.{cells, row};
ghost use Rattle.search_tree.specs.Resolvers.{growing, is_last, resolved, resolvers, wanted};
ghost use Rattle.search_tree.specs.declared.flaw.Flaw.TheVariants.{Gap as GapFlaw, Goal as GoalFlaw, Need as NeedFlaw};
ghost use Rattle.search_tree.specs.declared.flaw.Resolver.TheVariants.{Follow};
ghost use Rattle.timeline_db.specs.Heads.{IsHead};
ghost use Rattle.timeline_db.specs.Lines.{cell_of, row_of};
ghost use Rattle.timeline_db.specs.Plannings.{partial_of};
ghost use Rattle.timeline_db.specs.Tracked.{IsLine};
ghost use Rattle.timeline_db.specs.declared.token.Token.{Token};
ghost use Rattle.compat_resolve.specs.Listed.{closing, connects, inserts, ways};

use hs_base::{Choice, Kind, List, Memory, Need, SvId, TokenRef, ValId};
use search_tree::{Flaw, Resolver};
use std::alloc::Global;
use timeline_db::{Db, Line, Token};

/// Adds the tokens of that kind, by place.
fn push_connects(list: &mut List<Resolver>, tokens: &[Token], kind: Kind) -> Result<(), Memory>
    requires few { length tokens.now < 2 ^ 32 }
    requires own { AllByRecursion (λ (t : Token). t.held.kind.sv.0 ≡ kind.sv.0) tokens.now }
    ensures { OnOk result (list.new ≡ list.old ++ connects kind 0 (map cell_of tokens.now)) }
{
    for place in 0..tokens.len() {
        if tokens[place].held.kind.value.0 == kind.value.0 {
            let by = TokenRef {
                sv: kind.sv,
                place: place as u32,
            };
            list.push(Resolver::Connect { by })?;
        }
    }
    Ok(())
}

/// Adds a new token of that kind for each gap, by place.
fn push_gaps(list: &mut List<Resolver>, tokens: &[Token], kind: Kind) -> Result<(), Memory>
    requires { length tokens.now < 2 ^ 32 }
    ensures { OnOk result (list.new ≡ list.old ++ inserts kind (slots_from true (map cell_of tokens.now))) }
{
    for place in 1..tokens.len() {
        if !tokens[place].joined {
            list.push(Resolver::Insert {
                sv: kind.sv,
                place: place as u32 - 1,
                value: kind.value,
            })?;
        }
    }
    Ok(())
}

/// Adds a new token of that kind for each slot, by place.
fn push_inserts(list: &mut List<Resolver>, line: &Line, kind: Kind) -> Result<(), Memory>
    requires few { length line.now.tokens < 2 ^ 32 }
    requires some { line.now.finished ≡ false → 0 < length line.now.tokens }
    ensures { OnOk result (list.new ≡ list.old ++ inserts kind (slots_from line.now.finished (map cell_of line.now.tokens))) }
{
    push_gaps(list, line.tokens(), kind)?;
    if !line.is_finished() {
        list.push(Resolver::Insert {
            sv: kind.sv,
            place: line.len() as u32 - 1,
            value: kind.value,
        })?;
    }
    Ok(())
}

/// Adds the tokens of a timeline that could serve as one of that kind: those that are there, then
/// new ones.
fn push_on(list: &mut List<Resolver>, db: &Db, line: &Line, kind: Kind) -> Result<(), Memory>
    requires shows { row_of line.now ≡ row (partial_of db.now) kind.sv.0 }
    requires line { IsLine line.now }
    ensures { OnOk result (list.new ≡ list.old ++ wanted db.now.begun (partial_of db.now) kind) }
{
    db.was_allowed();
    push_connects(list, line.tokens(), kind)?;
    if db.has_room() {
        push_inserts(list, line, kind)?;
    }
    Ok(())
}

/// Adds the tokens that could serve as one of that kind.
fn push_wanted(list: &mut List<Resolver>, db: &Db, kind: Kind) -> Result<(), Memory>
    ensures { OnOk result (list.new ≡ list.old ++ wanted db.now.begun (partial_of db.now) kind) }
{
    db.was_allowed();
    match db.line(kind.sv) {
        Some(line) => push_on(list, db, line, kind),
        None => Ok(()),
    }
}

/// Adds the values that may follow a token, in their order.
fn push_values(list: &mut List<Resolver>, next: &[ValId]) -> Result<(), Memory>
    ensures { OnOk result (list.new ≡ list.old ++ map (λ n. Follow n) next.now) }
{
    for value in next {
        list.push(Resolver::Follow { value: *value })?;
    }
    Ok(())
}

/// Adds those, if there is room for a token.
fn push_follows(list: &mut List<Resolver>, db: &Db, next: &[ValId]) -> Result<(), Memory>
    ensures { OnOk result (list.new ≡ list.old ++ growing db.now.begun (partial_of db.now) (map (λ n. Follow n) next.now)) }
{
    if db.has_room() {
        push_values(list, next)?;
    }
    Ok(())
}

/// Whether the token is the last of its timeline.
fn is_last(db: &Db, token: TokenRef) -> bool
    ensures { result ≡ is_last (partial_of db.now) token }
{
    db.was_allowed();
    match db.line(token.sv) {
        Some(line) => token.place as usize + 1 == line.len(),
        None => false,
    }
}

/// Adds the ways to give a goal its token.
fn push_for_goal(list: &mut List<Resolver>, db: &Db, goal: u32) -> Result<(), Memory>
    ensures { OnOk result (list.new ≡ list.old ++ resolved db.now.mission db.now.begun (partial_of db.now) (GoalFlaw goal)) }
{
    match db.wanted(goal) {
        Some(kind) => push_wanted(list, db, kind),
        None => Ok(()),
    }
}

/// Adds the tokens that could serve as one of these choices.
fn push_choices(list: &mut List<Resolver>, db: &Db, choices: &[Choice]) -> Result<(), Memory>
    ensures { OnOk result (list.new ≡ list.old ++ flat_map (λ (c : Choice). wanted db.now.begun (partial_of db.now) c.by) choices.now) }
{
    for choice in choices {
        push_wanted(list, db, choice.by)?;
    }
    Ok(())
}

/// Adds the tokens that could serve a need, and the leaving of it to a later plan.
fn push_ways(list: &mut List<Resolver>, db: &Db, token: TokenRef, need: &Need) -> Result<(), Memory>
    ensures { OnOk result (list.new ≡ list.old ++ ways db.now.begun (partial_of db.now) token need.now) }
{
    push_choices(list, db, need.either.as_slice())?;
    if need.is_deferrable() && is_last(db, token) {
        list.push(Resolver::Defer)?;
    }
    Ok(())
}

/// Adds the ways to serve the need of that number of a token.
fn push_for_need(
    list: &mut List<Resolver>,
    db: &Db,
    token: TokenRef,
    need: u32,
) -> Result<(), Memory>
    requires { IsThere (partial_of db.now) token }
    ensures { OnOk result (list.new ≡ list.old ++ resolved db.now.mission db.now.begun (partial_of db.now) (NeedFlaw token need)) }
{
    match db.need(token, need) {
        Some(need) => push_ways(list, db, token, need),
        None => Ok(()),
    }
}

/// Whether one of these values is that one.
fn is_among(values: &[ValId], value: ValId) -> bool
    ensures { result ≡ list_any (λ (n : ValId). nat_eq n.0 value.0) values.now }
{
    values.iter().any(|allowed| allowed.0 == value.0)
}

/// Adds the closing of a gap, if the values allow it, or of an open end.
fn push_closing(
    list: &mut List<Resolver>,
    tokens: &[Token],
    place: u32,
    next: &[ValId],
) -> Result<(), Memory>
    ensures { OnOk result (list.new ≡ list.old ++ closing (map cell_of tokens.now) place next.now) }
{
    let after = place as usize + 1;
    if after >= tokens.len() {
        return list.push(Resolver::Finish);
    }
    if is_among(next, tokens[after].held.kind.value) {
        list.push(Resolver::Join)?;
    }
    Ok(())
}

/// Adds the ways to fill a gap or an open end of a timeline.
fn push_in(
    list: &mut List<Resolver>,
    db: &Db,
    line: &Line,
    sv: SvId,
    place: u32,
) -> Result<(), Memory>
    requires shows { row_of line.now ≡ row (partial_of db.now) sv.0 }
    requires line { IsLine line.now }
    requires place { place < length line.now.tokens }
    ensures { OnOk result (list.new ≡ list.old ++ resolved db.now.mission db.now.begun (partial_of db.now) (GapFlaw sv place)) }
{
    let tokens = line.tokens();
    let next = db.next(tokens[place as usize].held.kind);
    push_closing(list, tokens, place, next)?;
    push_follows(list, db, next)?;
    Ok(())
}

/// Adds the ways to fill a gap or an open end.
fn push_for_slot(list: &mut List<Resolver>, db: &Db, sv: SvId, place: u32) -> Result<(), Memory>
    requires { place < length (cells (row (partial_of db.now) sv.0)) }
    ensures { OnOk result (list.new ≡ list.old ++ resolved db.now.mission db.now.begun (partial_of db.now) (GapFlaw sv place)) }
{
    db.was_allowed();
    match db.line(sv) {
        Some(line) => push_in(list, db, line, sv, place),
        None => Ok(()),
    }
}

/// Adds the ways to resolve a flaw.
fn push_for(list: &mut List<Resolver>, db: &Db, flaw: Flaw) -> Result<(), Memory>
    requires { IsHead (flaws db.now.mission db.now.begun (partial_of db.now)) flaw }
    ensures { OnOk result (list.new ≡ list.old ++ resolved db.now.mission db.now.begun (partial_of db.now) flaw) }
{
    db.was_allowed();
    match flaw {
        Flaw::Goal(goal) => push_for_goal(list, db, goal),
        Flaw::Need { token, need } => push_for_need(list, db, token, need),
        Flaw::Gap { sv, place } => push_for_slot(list, db, sv, place),
    }
}

/// The list without its items, in the room that it has.
fn emptied(list: List<Resolver>) -> List<Resolver>
    ensures { result ≡ [] }
{
    let mut items = list.into_vec();
    items.clear();
    List::from_vec(items)
}

/// The ways to resolve the first flaw, in their order, in the room of a list that is given.
pub fn resolvers_in(room: List<Resolver>, db: &Db, flaw: Flaw) -> Result<List<Resolver>, Memory>
    requires { IsHead (flaws db.now.mission db.now.begun (partial_of db.now)) flaw }
    ensures { IfOk result (λ list. list ≡ resolvers db.now.mission db.now.begun (partial_of db.now) flaw) }
{
    let mut list = emptied(room);
    if db.is_within() {
        push_for(&mut list, db, flaw)?;
    }
    Ok(list)
}

/// The ways to resolve the first flaw, in their order.
pub fn resolvers(alloc: Global, db: &Db, flaw: Flaw) -> Result<List<Resolver>, Memory>
    requires { IsHead (flaws db.now.mission db.now.begun (partial_of db.now)) flaw }
    ensures { IfOk result (λ list. list ≡ resolvers db.now.mission db.now.begun (partial_of db.now) flaw) }
{
    resolvers_in(List::new(alloc), db, flaw)
}
