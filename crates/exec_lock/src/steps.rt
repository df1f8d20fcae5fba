ghost use Rattle.std.specs.Prelude.{◌≡◌, ◌<◌, [], ◌∷◌, false, true, length};
ghost use Rattle.hs_machine.specs.Histories.{IsPrefix, Appends};
ghost use Rattle.exec_lock.specs.Rule.{taken, given, seat_left, seat_right, note_of, note_heard, seats_merged};
ghost use Rattle.exec_lock.specs.Shares.{which};

use crate::rule::{Amount, Cut, Give, Hear, Learn, Merge, Take, TakeNote};
use crate::shared::Shared;
use crate::view::SeatView;
use atomic_table::{Badge, Seat};
use hs_machine::Core;
use std::mem;
use std::sync::Wait;

/// Takes the seat out of a pass.
pub fn seat_of<X>(badge: &mut Badge<SeatView>) -> Seat<X, SeatView>
    requires { (s : _) × (badge.old.views ≡ s ∷ []) }
    ensures same { (result.table_id ≡ badge.old.table_id) × (result.id ≡ badge.old.id) }
    ensures seat { (badge.old.views ≡ result.me.0 ∷ []) × (result.me.1 ≡ []) }
{
    mem::replace(badge, Badge::blank()).into_seat()
}

impl<X: Core> Shared<X> {
    /// Waits until the word is 0, and takes the core.
    pub(crate) fn take<R: Wait>(&self, rt: &R, seat: &mut Seat<X, SeatView>)
        requires own { seat.old.table_id ≡ which self.now }
        requires idle { (seat.old.me.1 ≡ []) × (0 < seat.old.me.0.view.count) }
        ensures same { (seat.new.table_id ≡ seat.old.table_id) × (seat.new.id ≡ seat.old.id) }
        ensures took { (x : X) × IsPrefix seat.old.me.0.view.seen (X.history x)
            × (X.opening x ≡ seat.old.me.0.view.opening)
            × (seat.new.me ≡ (taken seat.old.me.0 (X.history x), (0, x) ∷ [])) }
    {
        for _ in rt.forever() {
            if self.table.shared.compare_exchange::<Take>(seat, 0, 0, 1) == 0 {
                return;
            }
            self.table.shared.park(rt, 0, 1);
        }
        unreachable!()
    }

    /// Lets the core take one event.
    pub(crate) fn act(
        &self,
        seat: &mut Seat<X, SeatView>,
        by: u32,
        event: X::Event,
    ) -> (X::Reply, u64)
        requires own { seat.old.table_id ≡ which self.now }
        requires has { (x : X) × (seat.old.me.1 ≡ (0, x) ∷ []) }
        ensures same { (seat.new.table_id ≡ seat.old.table_id) × (seat.new.id ≡ seat.old.id) }
        ensures acted { (x : X) × (y : X) × (seat.old.me.1 ≡ (0, x) ∷ [])
            × (seat.new.me ≡ (seat.old.me.0, (0, y) ∷ []))
            × X.turn (X.opening x) (X.history x) by event result.0 (X.history y)
            × (X.opening y ≡ X.opening x) × Appends by (X.history x) (X.history y)
            × (result.1 ≡ length (X.history y)) }
    {
        let core = seat.slot_mut(&self.table.shared, 0);
        let reply = core.apply(by, event);
        (reply, core.front())
    }

    /// Puts the core back, and lets another pass take it.
    pub(crate) fn give(&self, seat: &mut Seat<X, SeatView>)
        requires own { seat.old.table_id ≡ which self.now }
        requires has { (x : X) × (seat.old.me.1 ≡ (0, x) ∷ []) × (seat.old.me.0.holds ≡ true)
            × Appends seat.old.me.0.view.first seat.old.me.0.view.seen (X.history x)
            × (X.opening x ≡ seat.old.me.0.view.opening) }
        ensures same { (seat.new.table_id ≡ seat.old.table_id) × (seat.new.id ≡ seat.old.id) }
        ensures gave { (x : X) → seat.old.me.1 ≡ (0, x) ∷ []
            → seat.new.me ≡ (given seat.old.me.0 (X.history x), []) }
    {
        self.table.shared.store::<Give>(seat, 0, 0);
        self.table.shared.wake_one(0);
    }

    /// Cuts off the last numbers of the seat's run, for a new seat.
    pub(crate) fn cut<N: Amount>(&self, seat: &mut Seat<X, SeatView>) -> Seat<X, SeatView>
        requires own { seat.old.table_id ≡ which self.now }
        requires idle { (seat.old.me.1 ≡ []) × (seat.old.me.0.holds ≡ false) }
        requires few { (0 < N.amount) × (N.amount < seat.old.me.0.view.count) }
        ensures same { (seat.new.table_id ≡ seat.old.table_id) × (seat.new.id ≡ seat.old.id) }
        ensures left { seat.new.me ≡ (seat_left N.amount seat.old.me.0, []) }
        ensures right { (result.table_id ≡ seat.old.table_id)
            × (result.me ≡ (seat_right N.amount seat.old.me.0, [])) }
    {
        self.table.shared.split_seat::<Cut<N>>(seat)
    }

    /// A new seat with no number, which has seen what this one has.
    pub(crate) fn note(&self, seat: &mut Seat<X, SeatView>) -> Seat<X, SeatView>
        requires own { seat.old.table_id ≡ which self.now }
        requires idle { (seat.old.me.0.holds ≡ false) × (0 < seat.old.me.0.view.count) }
        ensures same { (seat.new.table_id ≡ seat.old.table_id) × (seat.new.id ≡ seat.old.id)
            × (seat.new.me ≡ seat.old.me) }
        ensures note { (result.table_id ≡ seat.old.table_id)
            × (result.me ≡ (note_of seat.old.me.0, [])) }
    {
        self.table.shared.split_seat::<TakeNote>(seat)
    }

    /// Learns the order of the two histories that the seat was told of, by a try that is lost.
    fn learn(&self, seat: &mut Seat<X, SeatView>)
        requires own { seat.old.table_id ≡ which self.now }
        ensures same { (seat.new.table_id ≡ seat.old.table_id) × (seat.new.id ≡ seat.old.id)
            × (seat.new.me ≡ seat.old.me) }
        ensures told { IsPrefix seat.new.me.0.told seat.new.me.0.view.seen }
    {
        self.table.shared.compare_exchange::<Learn>(seat, 0, 2, 2);
    }

    /// Takes in another seat, with its numbers and calls.
    pub(crate) fn merge(&self, seat: &mut Seat<X, SeatView>, other: Seat<X, SeatView>)
        requires own { (seat.old.table_id ≡ which self.now) × (other.table_id ≡ which self.now) }
        requires idle { (seat.old.me.1 ≡ []) × (seat.old.me.0.holds ≡ false) }
        requires other { (other.me.1 ≡ []) × (other.me.0.holds ≡ false) }
        ensures same { (seat.new.table_id ≡ seat.old.table_id) × (seat.new.id ≡ seat.old.id) }
        ensures merged { seat.new.me ≡ (seats_merged seat.old.me.0 other.me.0, []) }
        ensures told { IsPrefix seat.new.me.0.told seat.new.me.0.view.seen }
    {
        self.table.shared.join_seat::<Merge>(seat, other);
        self.learn(seat);
    }

    /// Takes in a note.
    pub(crate) fn hear(&self, seat: &mut Seat<X, SeatView>, note: Seat<X, SeatView>)
        requires own { (seat.old.table_id ≡ which self.now) × (note.table_id ≡ which self.now) }
        requires idle { (seat.old.me.1 ≡ []) × (seat.old.me.0.holds ≡ false) }
        requires note { (note.me.1 ≡ []) × (note.me.0.holds ≡ false)
            × (note.me.0.view.count ≡ 0) × (note.me.0.view.joined ≡ []) }
        ensures same { (seat.new.table_id ≡ seat.old.table_id) × (seat.new.id ≡ seat.old.id) }
        ensures heard { seat.new.me ≡ (note_heard seat.old.me.0 note.me.0, []) }
        ensures told { IsPrefix seat.new.me.0.told seat.new.me.0.view.seen }
    {
        self.table.shared.join_seat::<Hear>(seat, note);
        self.learn(seat);
    }
}
