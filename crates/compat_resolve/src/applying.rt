ghost use Rattle.std.specs.Prelude.{◌≡◌, ◌≢◌, [], ◌∷◌, Contains, IfErr, OnErr, OnOk};
ghost use Rattle.search_tree.specs.Flaws.{flaws};
ghost use Rattle.search_tree.specs.Partial.{row};
ghost use Rattle.search_tree.specs.PartialBounds.{HasSchedule};
ghost use Rattle.search_tree.specs.Parts.{do_parts};
ghost use Rattle.search_tree.specs.Resolvers.{connecting, parts_of, resolve, resolvers};
ghost use Rattle.search_tree.specs.declared.flaw.Flaw.TheVariants.{Need as NeedFlaw};
ghost use Rattle.search_tree.specs.declared.flaw.Resolver.TheVariants.{Defer, Insert};
ghost use Rattle.search_tree.specs.declared.part.Part.TheVariants.{Followed};
ghost use Rattle.timeline_db.specs.Heads.{IsHead};
ghost use Rattle.timeline_db.specs.Plannings.{IsOpen, partial_of};
ghost use Rattle.timeline_db.specs.Shutting.{IfCycle};
ghost use Rattle.compat_resolve.specs.Applied.{DoesParts, MayDoParts, Prolongs, Resolves};

use hs_base::{Support, SvId, TokenRef, ValId};
use search_tree::{Flaw, Resolver};
use timeline_db::{Db, Shut};

/// Lets a token serve the goal or need. On a refusal nothing has changed.
fn connect(db: &mut Db, flaw: Flaw, by: TokenRef) -> Result<(), Shut>
    requires allowed { MayDoParts db.old (connecting flaw by) }
    requires ahead { connecting flaw by ≡ [] → IsOpen db.old }
    ensures done { OnOk result (DoesParts (connecting flaw by) db.old db.new) }
    ensures kept { OnOk result (IsOpen db.new) }
    ensures same { OnErr result (db.new ≡ db.old) }
    ensures shut { IfErr result (λ e. IfCycle e (HasSchedule db.old.mission db.old.begun (do_parts (partial_of db.old) (connecting flaw by)) → ⊥)) }
{
    match flaw {
        Flaw::Goal(goal) => db.meet_goal(goal, by),
        Flaw::Need { token, need } => db.support(Support { token, need, by }),
        Flaw::Gap { .. } => Ok(()),
    }
}

/// Puts a new token behind that place, and lets it serve the goal or need. On a refusal it may
/// stand there.
fn insert(db: &mut Db, flaw: Flaw, sv: SvId, place: u32, value: ValId) -> Result<(), Shut>
    requires { MayDoParts db.old (parts_of (partial_of db.old) flaw (Insert sv place value)) }
    ensures done { OnOk result (Resolves flaw (Insert sv place value) db.old db.new) }
    ensures kept { OnOk result (IsOpen db.new) }
    ensures more { OnErr result (Prolongs db.old db.new) }
    ensures shut { IfErr result (λ e. IfCycle e (HasSchedule db.old.mission db.old.begun (resolve (partial_of db.old) flaw (Insert sv place value)) → ⊥)) }
{
    db.was_allowed();
    match db.insert(sv, place, value) {
        Ok(by) => connect(db, flaw, by),
        Err(shut) => Err(shut),
    }
}

/// Whether a timeline is finished.
fn is_finished(db: &Db, sv: SvId) -> bool
    ensures { result ≡ (row (partial_of db.now) sv.0).finished }
{
    db.was_allowed();
    match db.line(sv) {
        Some(line) => line.is_finished(),
        None => true,
    }
}

/// Finishes the timeline of a token, if it isn't, and leaves the need to a later plan. On a refusal
/// the timeline may be finished.
fn defer(db: &mut Db, token: TokenRef, need: u32) -> Result<(), Shut>
    requires { MayDoParts db.old (parts_of (partial_of db.old) (NeedFlaw token need) Defer) }
    ensures done { OnOk result (Resolves (NeedFlaw token need) Defer db.old db.new) }
    ensures kept { OnOk result (IsOpen db.new) }
    ensures more { OnErr result (Prolongs db.old db.new) }
    ensures shut { IfErr result (λ e. IfCycle e (HasSchedule db.old.mission db.old.begun (resolve (partial_of db.old) (NeedFlaw token need) Defer) → ⊥)) }
{
    db.was_allowed();
    if is_finished(db, token.sv) {
        return db.defer(token, need);
    }
    match db.finish(token.sv) {
        Ok(()) => db.defer(token, need),
        Err(shut) => Err(shut),
    }
}

/// Joins a new token to the one before a slot. On a refusal nothing has changed.
fn follow(db: &mut Db, sv: SvId, place: u32, value: ValId) -> Result<(), Shut>
    requires { MayDoParts db.old (Followed sv place value ∷ []) }
    ensures done { OnOk result (DoesParts (Followed sv place value ∷ []) db.old db.new) }
    ensures kept { OnOk result (IsOpen db.new) }
    ensures same { OnErr result (db.new ≡ db.old) }
    ensures shut { IfErr result (λ e. IfCycle e (HasSchedule db.old.mission db.old.begun (do_parts (partial_of db.old) (Followed sv place value ∷ [])) → ⊥)) }
{
    match db.follow(sv, place, value) {
        Ok(_) => Ok(()),
        Err(shut) => Err(shut),
    }
}

/// Does the parts of a resolver, the first of which may be done though a later one is refused.
fn do_parts(db: &mut Db, flaw: Flaw, resolver: Resolver) -> Result<(), Shut>
    requires allowed { MayDoParts db.old (parts_of (partial_of db.old) flaw resolver) }
    requires some { parts_of (partial_of db.old) flaw resolver ≢ [] }
    ensures done { OnOk result (Resolves flaw resolver db.old db.new) }
    ensures kept { OnOk result (IsOpen db.new) }
    ensures more { OnErr result (Prolongs db.old db.new) }
    ensures shut { IfErr result (λ e. IfCycle e (HasSchedule db.old.mission db.old.begun (resolve (partial_of db.old) flaw resolver) → ⊥)) }
{
    match (flaw, resolver) {
        (_, Resolver::Connect { by }) => connect(db, flaw, by),
        (_, Resolver::Insert { sv, place, value }) => insert(db, flaw, sv, place, value),
        (Flaw::Need { token, need }, Resolver::Defer) => defer(db, token, need),
        (Flaw::Gap { sv, place }, Resolver::Join) => db.join(sv, place),
        (Flaw::Gap { sv, .. }, Resolver::Finish) => db.finish(sv),
        (Flaw::Gap { sv, place }, Resolver::Follow { value }) => follow(db, sv, place, value),
        _ => Ok(()),
    }
}

/// Does what a resolver of the first flaw does. On a refusal the partial plan is unchanged.
pub fn apply(db: &mut Db, flaw: Flaw, resolver: &Resolver) -> Result<(), Shut>
    requires flaw { IsHead (flaws db.old.mission db.old.begun (partial_of db.old)) flaw }
    requires listed { Contains (resolvers db.old.mission db.old.begun (partial_of db.old) flaw) resolver.now }
    ensures done { OnOk result (Resolves flaw resolver.now db.old db.new) }
    ensures kept { OnOk result (IsOpen db.new) }
    ensures same { OnErr result (db.new ≡ db.old) }
    ensures shut { IfErr result (λ e. IfCycle e (HasSchedule db.old.mission db.old.begun (resolve (partial_of db.old) flaw resolver.now) → ⊥)) }
{
    db.was_allowed();
    let mark = db.mark();
    match do_parts(db, flaw, *resolver) {
        Ok(()) => Ok(()),
        Err(shut) => {
            db.undo(mark);
            Err(shut)
        }
    }
}
