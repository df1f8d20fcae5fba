ghost use Rattle.std.specs.Prelude.{List, [], ℕ, IfErr, IfNone, IfOk, IfSome, OnOk, length, ◌++◌, ◌+◌, ◌<◌, ◌∷◌, ◌≡◌, ◌≤◌};
ghost use Rattle.plan_check.specs.Seen.{seen};
ghost use Rattle.plan_search.specs.Answered.{IsNoneFound, IsPlanAt, IsPlanFound};
ghost use Rattle.plan_search.specs.Descends.{Descends, is_memory, plan_of};
ghost use Rattle.plan_search.specs.Searched.{IsSearched, Reaches, path_to};
ghost use Rattle.plan_search.specs.Told.{told};
ghost use Rattle.search_tree.specs.Begun.{begun_of};
ghost use Rattle.search_tree.specs.Flaws.{flaws};
ghost use Rattle.search_tree.specs.Outset.{MayBegin};
ghost use Rattle.search_tree.specs.Resolvers.{resolvers};
ghost use Rattle.search_tree.specs.Search.{FindsPlan, FindsPlanAt, FindsWhere, FindsWhereAt};
ghost use Rattle.timeline_db.specs.Heads.{IsHead};
ghost use Rattle.timeline_db.specs.Plannings.{IsOpen, partial_of};

use crate::found::Found;
use crate::frames::{Frame, Frames, path_of};
use crate::steps::Steps;
use crate::unplanned::Unplanned;
use crate::visiting::{Visited, visit};
use compat_resolve::apply;
use hs_base::{List, Memory};
use plan_check::{AllPlans, CheckedPlan, Filter, Snapshot};
use std::alloc::Global;
use std::sync::ledger::Ledger;
use timeline_db::{Db, Shut};

/// Whether a part was not done for want of memory.
fn is_memory(shut: &Shut) -> bool
    ensures { result ≡ is_memory shut.now }
{
    matches!(shut, Shut::Memory)
}

/// Goes to the child of that number of a frame, and answers whether it has a schedule.
fn descend(db: &mut Db, frame: &Frame, child: usize) -> Result<bool, Memory>
    requires mark { frame.now.mark ≤ length db.old.parts }
    requires head { IsHead (flaws db.old.mission db.old.begun (plan_of db.old frame.now)) frame.now.flaw }
    requires listed { frame.now.resolvers ≡ resolvers db.old.mission db.old.begun (plan_of db.old frame.now) frame.now.flaw }
    requires child { child < length frame.now.resolvers }
    ensures { IfOk result (λ ahead. Descends frame.now child db.old db.new ahead) }
{
    db.undo(frame.mark);
    match apply(db, frame.flaw, &frame.resolvers[child]) {
        Ok(()) => Ok(true),
        Err(shut) => {
            if is_memory(&shut) {
                return Err(Memory);
            }
            Ok(false)
        }
    }
}

/// Visits the node that the partial plan is, behind these frames and so many nodes: the plan that it
/// is, or a frame more where it has children.
fn enter<F: Filter>(
    alloc: Global,
    base: &CheckedPlan,
    db: &Db,
    frames: &mut Frames,
    filter: &mut F,
    taken: u64,
) -> Result<Option<CheckedPlan>, Memory>
    requires mission { base.now.mission ≡ db.now.mission }
    requires plan { base.now.plan.extensions ≡ db.now.begun.base }
    requires ahead { IsOpen db.now }
    requires reached { Reaches (F.test filter.old) db.now.mission db.now.begun db.now.parts frames.old (record { path = path_to frames.old; plan = partial_of db.now }) taken }
    ensures more { IfOk result (λ o. IfNone o (IsSearched (F.test filter.old) db.now.mission db.now.begun db.now.parts frames.new (taken + 1))) }
    ensures found { IfOk result (λ o. IfSome o (IsPlanAt (F.test filter.old) db.now.mission db.now.begun (taken + 1))) }
    ensures few { OnOk result (length frames.new ≤ length frames.old + 1) }
    ensures same { filter.new ≡ filter.old }
{
    db.was_allowed();
    match visit(alloc, base, db, frames, filter)? {
        Visited::Inner(frame) => {
            frames.push(frame)?;
            Ok(None)
        }
        Visited::Plan(plan) => Ok(Some(plan)),
        Visited::Leaf => Ok(None),
    }
}

/// Takes the next child of a frame behind these and so many nodes: the plan that it is, or the
/// frames that are left.
fn take_child<F: Filter>(
    alloc: Global,
    base: &CheckedPlan,
    db: &mut Db,
    frames: &mut Frames,
    frame: Frame,
    filter: &mut F,
    taken: u64,
) -> Result<Option<CheckedPlan>, Memory>
    requires mission { base.now.mission ≡ db.old.mission }
    requires plan { base.now.plan.extensions ≡ db.old.begun.base }
    requires next { frame.next < length frame.resolvers }
    requires searched { IsSearched (F.test filter.old) db.old.mission db.old.begun db.old.parts (frames.old ++ frame ∷ []) taken }
    ensures mission { OnOk result (db.new.mission ≡ db.old.mission) }
    ensures begun { OnOk result (db.new.begun ≡ db.old.begun) }
    ensures more { IfOk result (λ o. IfNone o (IsSearched (F.test filter.old) db.old.mission db.old.begun db.new.parts frames.new (taken + 1))) }
    ensures found { IfOk result (λ o. IfSome o (IsPlanAt (F.test filter.old) db.old.mission db.old.begun (taken + 1))) }
    ensures few { OnOk result (length frames.new ≤ length frames.old + 2) }
    ensures same { filter.new ≡ filter.old }
{
    let child = frame.next;
    let ahead = descend(db, &frame, child)?;
    frames.push(Frame {
        next: child + 1,
        ..frame
    })?;
    if !ahead {
        return Ok(None);
    }
    enter(alloc, base, db, frames, filter, taken)
}

/// Searches below these frames, where one node was taken.
fn search_below<F: Filter, L: Ledger>(
    alloc: Global,
    base: &CheckedPlan,
    db: &mut Db,
    frames: &mut Frames,
    filter: &mut F,
    budget: u64,
    steps: &mut Steps<L>,
) -> Result<CheckedPlan, Unplanned>
    requires mission { base.now.mission ≡ db.old.mission }
    requires plan { base.now.plan.extensions ≡ db.old.begun.base }
    requires searched { IsSearched (F.test filter.old) db.old.mission db.old.begun db.old.parts frames.old 1 }
    requires some { 0 < budget }
    ensures planned { IfOk result (IsPlanFound (F.test filter.old) db.old.mission db.old.begun budget steps.old (steps.new + 1)) }
    ensures unplanned { IfErr result (IsNoneFound (F.test filter.old) db.old.mission db.old.begun budget steps.old (steps.new + 1)) }
    ensures few { steps.new + 1 ≤ steps.old + budget }
    ensures same { filter.new ≡ filter.old }
{
    let mut taken: u64 = 1;
    'nodes: while let Some(frame) = frames.pop() {
        if frame.next < frame.resolvers.len() {
            if taken == budget {
                db.was_allowed();
                return Err(Unplanned::Budget(path_of(alloc, frames.as_slice(), frame.next)?));
            }
            steps.tick();
            let child = take_child(alloc, base, db, frames, frame, filter, taken)?;
            if let Some(plan) = child {
                return Ok(plan);
            }
            taken += 1;
        } else {
            frames.keep(frame.resolvers);
        }
    }
    Err(Unplanned::NoPlan)
}

/// The plan with the extension of the first finished node of the first `budget` nodes in preorder
/// that the filter takes. A step is a node that was taken.
pub(crate) fn plan_where<F: Filter, L: Ledger>(
    alloc: Global,
    snapshot: &Snapshot,
    filter: &mut F,
    budget: u64,
    steps: &mut Steps<L>,
) -> Result<CheckedPlan, Unplanned>
    requires { MayBegin snapshot.now.plan.mission (begun_of (seen snapshot.now)) }
    ensures planned { IfOk result (IsPlanFound (F.test filter.old) snapshot.now.plan.mission (begun_of (seen snapshot.now)) budget steps.old steps.new) }
    ensures unplanned { IfErr result (IsNoneFound (F.test filter.old) snapshot.now.plan.mission (begun_of (seen snapshot.now)) budget steps.old steps.new) }
    ensures few { steps.new ≤ steps.old + budget }
    ensures same { filter.new ≡ filter.old }
{
    if budget == 0 {
        return Err(Unplanned::Budget(List::new(alloc)));
    }
    let mut db = Db::begin(alloc, snapshot)?;
    let mut frames = Frames::new(alloc);
    steps.tick();
    match enter(alloc, &snapshot.plan, &db, &mut frames, filter, 0)? {
        Some(plan) => Ok(plan),
        None => search_below(
            alloc,
            &snapshot.plan,
            &mut db,
            &mut frames,
            filter,
            budget,
            steps,
        ),
    }
}

/// The extension of the first finished node of the first `budget` nodes in preorder whose plan the
/// filter takes. The steps are as many as the nodes that lead to what is found.
pub fn search_where<F: Filter, L: Ledger>(
    alloc: Global,
    snapshot: &Snapshot,
    filter: &mut F,
    budget: u64,
    steps: &mut Steps<L>,
) -> Result<Found, Memory>
    requires { MayBegin snapshot.now.plan.mission (begun_of (seen snapshot.now)) }
    ensures found { IfOk result (λ f. FindsWhere (F.test filter.old) snapshot.now.plan.mission (begun_of (seen snapshot.now)) budget (told f)) }
    ensures steps { IfOk result (λ f. (nodes : ℕ) × FindsWhereAt (F.test filter.old) snapshot.now.plan.mission (begun_of (seen snapshot.now)) nodes (told f) × (steps.new ≡ steps.old + nodes)) }
    ensures few { steps.new ≤ steps.old + budget }
    ensures same { filter.new ≡ filter.old }
{
    match plan_where(alloc, snapshot, filter, budget, steps) {
        Ok(plan) => Ok(Found::Plan(plan.into_last())),
        Err(Unplanned::NoPlan) => Ok(Found::NoPlan),
        Err(Unplanned::Budget(path)) => Ok(Found::Budget(path)),
        Err(Unplanned::Memory) => Err(Memory),
    }
}

/// The first plan of the search tree within the budget.
pub fn search<L: Ledger>(
    alloc: Global,
    snapshot: &Snapshot,
    budget: u64,
    steps: &mut Steps<L>,
) -> Result<Found, Memory>
    requires { MayBegin snapshot.now.plan.mission (begun_of (seen snapshot.now)) }
    ensures found { IfOk result (λ f. FindsPlan snapshot.now.plan.mission (begun_of (seen snapshot.now)) budget (told f)) }
    ensures steps { IfOk result (λ f. (nodes : ℕ) × FindsPlanAt snapshot.now.plan.mission (begun_of (seen snapshot.now)) nodes (told f) × (steps.new ≡ steps.old + nodes)) }
    ensures few { steps.new ≤ steps.old + budget }
{
    let mut all = AllPlans;
    search_where(alloc, snapshot, &mut all, budget, steps)
}
