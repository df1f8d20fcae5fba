ghost use Rattle.std.specs.Prelude.{◌≡◌, ◌⊎◌, ◌↔◌, [], Some, length, IsErr, IsOk, IfOk, OnOk, OnErr};
ghost use Rattle.hs_port.specs.Causes.{HasCause};
ghost use Rattle.hs_port.specs.Calls.{IsToFail, answered, failed, uncalled};
ghost use Rattle.hs_port.specs.Forms.{polled_at, answer_at};

use crate::failing::Failing;
use crate::{Answer, Device, Failed, Order};
use hs_base::{List, Memory, Var};
use std::alloc::Global;
use std::marker::Model;

/// A device in memory, whose answers are given beforehand. Some of its calls fail, as does a poll
/// for which no room is left.
#[derive(Debug, Drop)]
pub struct MemDevice {
    polls: Vec<(i64, Answer)>,
    room: usize,
    answers: List<Answer>,
    calls: Failing,
}

impl Model for MemDevice {
    ghost use Rattle.std.specs.Prelude.{◌+◌, ◌≤◌, vec_len, vec_capacity};
    ghost use Rattle.hs_port.specs.Forms.{Asking};

    ghost Value = { Asking };

    ghost view = { λ s. record {
      polls = s.polls.items;
      room = s.room;
      answers = s.answers;
      calls = s.calls;
    } };

    ghost invariant = { λ s. s.room + vec_len s.polls ≤ vec_capacity s.polls };
}

impl MemDevice {
    /// A device with room for `room` polls; the answered poll of number n, from 0, gives the
    /// answer of number n, and `Quiet` past their end. `fail` has the numbers, from 0, of the
    /// calls that are to fail, `tell` and `poll` counted together.
    pub fn begin(
        alloc: Global,
        room: u64,
        answers: List<Answer>,
        fail: List<u64>,
    ) -> Result<MemDevice, Memory>
        ensures { IfOk result (λ s. s ≡ record {
          polls = [];
          room = room;
          answers = answers;
          calls = uncalled fail;
        }) }
    {
        Ok(MemDevice {
            polls: Vec::with_capacity(alloc, room as usize)?,
            room: room as usize,
            answers,
            calls: Failing::begin(fail),
        })
    }

    /// The times and answers of the answered polls.
    pub fn polls(&self) -> &[(i64, Answer)]
        ensures { result.now ≡ self.now.polls }
    {
        self.polls.as_slice()
    }

    /// How many faults were counted.
    pub fn count(&self) -> u64
        ensures { result ≡ self.now.calls.faults }
    {
        self.calls.faults
    }
}

/// The answer of number n, from 0, and `Quiet` past their end.
fn answer_of(answers: &List<Answer>, n: usize) -> Answer
    ensures { result ≡ answer_at answers.now n }
{
    match answers.as_slice().get(n) {
        Some(answer) => *answer,
        None => Answer::Quiet,
    }
}

impl Device for MemDevice {
    ghost polls = { λ s. Some s.polls };

    ghost faults = { λ s. s.calls.faults };

    fn load(&mut self, _alloc: Global, _var: &Var) -> Result<(), Memory>
        ensures sure { IsOk result }
        ensures same { self.new ≡ self.old }
    {
        Ok(())
    }

    fn tell(&mut self, _order: Order) -> Result<(), Failed>
        ensures cause { HasCause self.old.calls.faults self.new.calls.faults result }
        ensures fails { IsErr result ↔ IsToFail self.old.calls }
        ensures ok { OnOk result (self.new ≡ record self.old { calls = answered self.old.calls }) }
        ensures err { OnErr result (self.new ≡ record self.old { calls = failed self.old.calls }) }
    {
        self.calls.call(true)
    }

    fn poll(&mut self, now: i64) -> Result<Answer, Failed>
        ensures cause { HasCause self.old.calls.faults self.new.calls.faults result }
        ensures fails { IsErr result ↔ (IsToFail self.old.calls ⊎ (self.old.room ≡ 0)) }
        ensures answer { IfOk result (λ a. a ≡ answer_at self.old.answers (length self.old.polls)) }
        ensures ok { IfOk result (λ a. self.new ≡ polled_at now a self.old) }
        ensures err { OnErr result (self.new ≡ record self.old { calls = failed self.old.calls }) }
    {
        self.calls.call(self.room > 0)?;
        let answer = answer_of(&self.answers, self.polls.len());
        self.polls.push((now, answer)).unwrap();
        self.room -= 1;
        Ok(answer)
    }
}
