ghost use Rattle.std.specs.Prelude.{[], IfOk, ◌≡◌};
ghost use Rattle.hs_base.specs.Checked.{Checked, joined};
ghost use Rattle.search_tree.specs.Extends.{extension};
ghost use Rattle.search_tree.specs.Flaws.{flaws};
ghost use Rattle.timeline_db.specs.Plannings.{partial_of};
ghost use Rattle.plan_search.specs.Visits.{IsVisited};

use crate::frames::{Frame, Frames};
use compat_resolve::{first_flaw, resolvers_in};
use hs_base::Memory;
use plan_check::{CheckedPlan, Filter};
use std::alloc::Global;
use timeline_db::Db;

/// What a visit of a node finds.
#[derive(Drop)]
pub(crate) enum Visited {
    /// A flaw, whose resolvers lead to the node's children.
    Inner(Frame),
    /// A plan that is taken.
    Plan(CheckedPlan),
    /// A plan that isn't.
    Leaf,
}

/// Asks the filter for the plan with the partial plan's extension, which has no flaw.
fn ask<F: Filter>(
    alloc: Global,
    base: &CheckedPlan,
    db: &Db,
    filter: &mut F,
) -> Result<Visited, Memory>
    requires mission { base.now.mission ≡ db.now.mission }
    requires plan { base.now.plan.extensions ≡ db.now.begun.base }
    requires flawless { flaws db.now.mission db.now.begun (partial_of db.now) ≡ [] }
    requires checked { Checked db.now.mission (joined db.now.begun.base (extension db.now.mission db.now.begun (partial_of db.now))) }
    ensures visited { IfOk result (λ v. IsVisited (F.test filter.old) db.now v) }
    ensures same { filter.new ≡ filter.old }
{
    let whole = base.joined(alloc, db.extension()?)?;
    if filter.takes(alloc, &whole)? {
        return Ok(Visited::Plan(whole));
    }
    Ok(Visited::Leaf)
}

/// Visits the node that the partial plan is, in the room that the frames have for it.
pub(crate) fn visit<F: Filter>(
    alloc: Global,
    base: &CheckedPlan,
    db: &Db,
    frames: &mut Frames,
    filter: &mut F,
) -> Result<Visited, Memory>
    requires mission { base.now.mission ≡ db.now.mission }
    requires plan { base.now.plan.extensions ≡ db.now.begun.base }
    requires checked { flaws db.now.mission db.now.begun (partial_of db.now) ≡ [] → Checked db.now.mission (joined db.now.begun.base (extension db.now.mission db.now.begun (partial_of db.now))) }
    ensures visited { IfOk result (λ v. IsVisited (F.test filter.old) db.now v) }
    ensures frames { frames.new ≡ frames.old }
    ensures same { filter.new ≡ filter.old }
{
    let Some(flaw) = first_flaw(db) else {
        return ask(alloc, base, db, filter);
    };
    Ok(Visited::Inner(Frame {
        flaw,
        resolvers: resolvers_in(frames.room(alloc), db, flaw)?,
        next: 0,
        mark: db.mark(),
    }))
}
