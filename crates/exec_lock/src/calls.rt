ghost use Rattle.std.specs.Prelude.{◌≡◌, ◌+◌, ◌<◌, [], ◌∷◌, length, IfOk, IfErr};
ghost use Rattle.hs_machine.specs.Histories.{IsPrefix};
ghost use Rattle.exec_lock.specs.Passes.{size, first_view, cut_left, cut_right, heard, merged};
ghost use Rattle.exec_lock.specs.Shares.{which, core_shared, Calls, Ends};

use crate::pass::Pass;
use crate::rule::Amount;
use crate::shared::{Front, Left, Shared, Unshared};
use crate::steps::seat_of;
use crate::view::SeatView;
use atomic_table::{Refused, Seat, Table};
use hs_machine::Core;
use std::alloc::{AllocFailed, Global};
use std::marker::Brand;
use std::snapshot::Snapshot;
use std::sync::Wait;

/// The one element.
fn only<T: Drop>(mut row: Vec<T, Global>) -> T
    requires { length row.items ≡ 1 }
    ensures { row.items ≡ result ∷ [] }
{
    let element = row.pop().unwrap();
    row.destroy_empty();
    element
}

impl<X: Core> Shared<X> {
    /// Shares a core. The first pass has the numbers 0 to 4,294,967,294.
    pub fn begin(alloc: Global, core: X) -> Result<(Shared<X>, Pass), Unshared<X>>
        ensures ok { IfOk result (λ r. (core_shared r.0 ≡ core) × (r.1 ≡ record {
          shared = which r.0;
          view = first_view (X.opening core) (X.history core);
        })) }
        ensures err { IfErr result (λ u. u.core ≡ core) }
    {
        let about = Snapshot::of(&core);
        let mut slots = Vec::new(alloc);
        if let Err(failed) = slots.push(core) {
            let AllocFailed { value } = failed;
            return Err(Unshared { core: value });
        }
        match Table::new(alloc, &[0], slots, &about) {
            Ok((table, seat)) => {
                let pass = Pass {
                    badge: seat.into_badge(),
                    first: 0,
                    count: u32::MAX,
                    answered: u32::MAX,
                };
                Ok((Shared { table }, pass))
            }
            Err(Refused { slots }) => Err(Unshared { core: only(slots) }),
        }
    }

    /// Waits for the turn, and lets the core take one event of this pass.
    pub fn call<R: Wait>(&self, rt: &R, pass: &mut Pass, event: X::Event) -> (X::Reply, Front)
        requires { pass.old.shared ≡ which self.now }
        ensures called { Calls
            (λ before after. X.turn pass.old.view.opening before pass.old.view.first event result.0 after)
            pass.old.view pass.new.view }
        ensures same { pass.new.shared ≡ pass.old.shared }
        ensures front { result.1.0 ≡ length pass.new.view.seen }
    {
        let by = pass.first;
        let mut seat: Seat<X, SeatView> = seat_of(&mut pass.badge);
        self.take(rt, &mut seat);
        let (reply, front) = self.act(&mut seat, by, event);
        self.give(&mut seat);
        pass.badge = seat.into_badge();
        (reply, Front(front))
    }

    fn split_by<N: Amount>(&self, pass: &mut Pass, numbers: u32) -> Pass
        requires own { pass.old.shared ≡ which self.now }
        requires few { (numbers ≡ N.amount) × (0 < numbers) × (numbers < pass.old.view.count) }
        ensures kept { pass.new ≡ record {
          shared = pass.old.shared;
          view = cut_left numbers pass.old.view;
        } }
        ensures given { result ≡ record {
          shared = pass.old.shared;
          view = cut_right numbers pass.old.view;
        } }
    {
        let mut seat: Seat<X, SeatView> = seat_of(&mut pass.badge);
        let other = self.cut::<N>(&mut seat);
        pass.badge = seat.into_badge();
        pass.count -= numbers;
        pass.answered = pass.answered.wrapping_sub(numbers);
        Pass {
            badge: other.into_badge(),
            first: pass.first + pass.count,
            count: numbers,
            answered: numbers,
        }
    }

    /// Gives the last `numbers` numbers of the pass's run to a new pass, which has seen as much.
    pub fn split(&self, pass: &mut Pass, numbers: u32) -> Pass
        requires own { pass.old.shared ≡ which self.now }
        requires few { (0 < numbers) × (numbers < pass.old.view.count) }
        ensures kept { pass.new ≡ record {
          shared = pass.old.shared;
          view = cut_left numbers pass.old.view;
        } }
        ensures given { result ≡ record {
          shared = pass.old.shared;
          view = cut_right numbers pass.old.view;
        } }
    {
        self.split_by::<Brand>(pass, numbers)
    }

    /// Takes in what another pass has seen, and answers for its numbers and calls.
    pub fn join(&self, pass: &mut Pass, other: Pass)
        requires own { (pass.old.shared ≡ which self.now) × (other.shared ≡ which self.now) }
        ensures joined { pass.new ≡ record {
          shared = pass.old.shared;
          view = merged pass.old.view other.view;
        } }
        ensures seen { IsPrefix pass.old.view.seen pass.new.view.seen
            × IsPrefix other.view.seen pass.new.view.seen }
    {
        let Pass {
            mut badge,
            answered,
            first: _,
            count: _,
        } = other;
        let theirs: Seat<X, SeatView> = seat_of(&mut badge);
        let mut seat: Seat<X, SeatView> = seat_of(&mut pass.badge);
        self.merge(&mut seat, theirs);
        pass.badge = seat.into_badge();
        pass.answered = pass.answered.wrapping_add(answered);
    }

    /// Both passes have then seen the longer of what the two had seen; nothing else changes.
    pub fn meet(&self, pass: &mut Pass, other: &mut Pass)
        requires own { (pass.old.shared ≡ which self.now) × (other.old.shared ≡ which self.now) }
        ensures pass { pass.new ≡ record {
          shared = pass.old.shared;
          view = heard pass.old.view other.old.view;
        } }
        ensures other { other.new ≡ record {
          shared = other.old.shared;
          view = heard other.old.view pass.old.view;
        } }
        ensures seen { (other.new.view.seen ≡ pass.new.view.seen)
            × IsPrefix pass.old.view.seen pass.new.view.seen
            × IsPrefix other.old.view.seen pass.new.view.seen }
    {
        let mut seat: Seat<X, SeatView> = seat_of(&mut pass.badge);
        let mut theirs: Seat<X, SeatView> = seat_of(&mut other.badge);
        let ours = self.note(&mut seat);
        let note = self.note(&mut theirs);
        self.hear(&mut seat, note);
        self.hear(&mut theirs, ours);
        pass.badge = seat.into_badge();
        other.badge = theirs.into_badge();
    }

    /// The core, where the pass answers for every number of the first run; else the core is
    /// dropped.
    pub fn close(self, pass: Pass) -> Result<X, Left>
        requires { pass.shared ≡ which self }
        ensures ok { IfOk result (λ x. (size pass.view ≡ 4294967295)
            × Ends X.opening X.history (core_shared self) pass.view x) }
        ensures err { IfErr result (λ l. (0 < l.away) × (l.away + size pass.view ≡ 4294967295)) }
    {
        let Shared { table } = self;
        let Pass {
            mut badge,
            answered,
            first: _,
            count: _,
        } = pass;
        let seat: Seat<X, SeatView> = seat_of(&mut badge);
        let mut closed = table.close_with(seat);
        let core = closed.take(0);
        closed.free();
        if answered == u32::MAX {
            Ok(core)
        } else {
            drop(core);
            Err(Left {
                away: u32::MAX - answered,
            })
        }
    }
}
