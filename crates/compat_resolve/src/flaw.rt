ghost use Rattle.std.specs.Prelude.{◌≡◌, [], IfNone, IfSome};
ghost use Rattle.search_tree.specs.Flaws.{flaws};
ghost use Rattle.timeline_db.specs.Heads.{IsHead};
ghost use Rattle.timeline_db.specs.Plannings.{partial_of};

use search_tree::Flaw;
use timeline_db::Db;

/// The first flaw of a partial plan: a goal without token, then a need that is neither served nor
/// left to a later plan, then a gap or open end. It takes no memory.
pub fn first_flaw(db: &Db) -> Option<Flaw>
    ensures some { IfSome result (λ f. IsHead (flaws db.now.mission db.now.begun (partial_of db.now)) f) }
    ensures none { IfNone result (flaws db.now.mission db.now.begun (partial_of db.now) ≡ []) }
{
    if let Some(goal) = db.open_goal() {
        return Some(Flaw::Goal(goal));
    }
    if let Some((token, need)) = db.open_need() {
        return Some(Flaw::Need { token, need });
    }
    let (sv, place) = db.open_slot()?;
    Some(Flaw::Gap { sv, place })
}
