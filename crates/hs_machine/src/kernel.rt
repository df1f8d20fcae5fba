ghost use Rattle.std.specs.Prelude.{◌≡◌, ℕ, List, length};
ghost use Rattle.hs_base.specs.declared.mission.Mission.{Mission};
ghost use Rattle.hs_machine.specs.declared.history.Entry.{Entry};
ghost use Rattle.hs_machine.specs.Histories.{Appends};

/// A state machine that a lock can hold: it opens with a mission, takes one event at a time, and
/// keeps the history of what it did.
pub trait Core: Drop {
    type Event;

    type Reply;

    ghost opening: { Self → Mission };

    ghost history: { Self → List Entry };

    // Of the opening, the history before, who asks, the event, the reply and the history after.
    ghost turn: { Mission → List Entry → ℕ → Self.Event → Self.Reply → List Entry → Type 0 };

    /// Answers one event of the pass with this number.
    fn apply(&mut self, by: u32, event: Self::Event) -> Self::Reply
        ensures turn { turn (opening self.old) (history self.old) by event result (history self.new) }
        ensures opening { opening self.new ≡ opening self.old }
        ensures appended { Appends by (history self.old) (history self.new) };

    /// The number of entries of the history.
    fn front(&self) -> u64
        ensures { result ≡ length (history self.now) };
}
