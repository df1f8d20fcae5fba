ghost use Rattle.std.specs.Prelude.{◌≡◌, ◌≢◌};
ghost use Rattle.hs_machine.specs.Machine.{Turn};
ghost use Rattle.horizon_handover.specs.Offers.{Offered};
ghost use Rattle.exec_core.specs.Replies.{reply_of};
ghost use Rattle.exec_core.specs.Events.{event_of};
ghost use Rattle.exec_core.specs.declared.event.Event.TheVariants.{Handover};

use crate::{Event, Exec, Reply};
use hs_machine::Core;

impl Exec {
    /// Takes in what it is told, where that is no offer.
    fn take(&mut self, by: u32, event: &Event) -> Reply
        requires { (offer : Offered) → event.now ≢ Handover offer }
        ensures turn { Turn self.old.mission self.old.history by (event_of event.now) (reply_of result) self.new.history }
        ensures mission { self.new.mission ≡ self.old.mission }
    {
        match event {
            Event::Tick => self.tick(by),
            Event::Fire(point) => self.fire(by, *point),
            Event::Report(point) => self.report(by, *point),
            Event::Broken(device) => self.broken(by, *device),
            Event::Line(sv) => self.line(*sv),
            Event::Handover(_) => unreachable!(),
        }
    }
}

impl Core for Exec {
    type Event = Event;

    type Reply = Reply;

    ghost use Rattle.hs_machine.specs.Machine.{Turn};
    ghost use Rattle.exec_core.specs.Replies.{reply_of};
    ghost use Rattle.exec_core.specs.Events.{event_of};

    ghost opening = { λ e. e.mission };

    ghost history = { λ e. e.history };

    // A turn of the schedule machine.
    ghost turn = { λ m before by event reply after. Turn m before by (event_of event) (reply_of reply) after };

    #[tactic(auto, using(crate::proofs::TurnLemmas::turn_appends))]
    fn apply(&mut self, by: u32, event: Event) -> Reply {
        match event {
            Event::Handover(offer) => self.hand_over(by, offer),
            told => self.take(by, &told),
        }
    }

    fn front(&self) -> u64 {
        self.history().len() as u64
    }
}
