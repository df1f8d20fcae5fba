ghost use Rattle.std.specs.Prelude.{◌≡◌, ◌≢◌, ◌↔◌, ◌≤◌, ◌-◌, ◌∷◌, [], true, drop, take, length, IfOk, MatchOption};
ghost use Rattle.hs_base.specs.Missions.{ends_waiting};
ghost use Rattle.device_script.specs.Runs.{begun, hearing, from_wait, order_in, orders_in, orders_to};

use hs_base::{Copies, List, Memory, Step, Value, WordId};
use hs_port::Answer;
use std::alloc::Global;
use std::marker::Model;

/// Whether a script awaits a further word.
#[derive(Clone, Copy, Debug, PartialEq, Eq)]
pub enum Progress {
    Waiting,
    Finished,
}

/// A script in execution. Contracts see the orders that are still to be given, and the steps from
/// the awaited word on.
#[derive(Drop)]
pub struct Runner {
    steps: List<Step>,
    given: usize,
    reached: usize,
}

impl Model for Runner {
    ghost use Rattle.std.specs.Prelude.{◌≤◌, length};
    ghost use Rattle.device_script.specs.Runs.{Stage, stage_at};

    ghost Value = { Stage };

    ghost view = { λ r. stage_at r.steps r.given r.reached };

    ghost invariant = { λ r. (r.given ≤ r.reached) × (r.reached ≤ length r.steps) };
}

/// The number of the first step from there on that awaits a word, or the number of steps.
fn wait_from(steps: &[Step], from: usize) -> usize
    requires { from ≤ length steps.now }
    ensures low { from ≤ result }
    ensures high { result ≤ length steps.now }
    ensures wait { drop result steps.now ≡ from_wait (drop from steps.now) }
    ensures orders { orders_in (take (result - from) (drop from steps.now)) ≡ orders_to (drop from steps.now) }
{
    let mut i = from;
    'steps: while i < steps.len() {
        if let Step::Until { .. } = steps[i] {
            return i;
        }
        i += 1;
    }
    i
}

/// The order of a step.
fn order_of(step: Step) -> Option<(WordId, i64)>
    ensures { result ≡ order_in step }
{
    match step {
        Step::Do { word, amount } => Some((word, amount)),
        Step::Until { .. } => None,
    }
}

impl Runner {
    /// The script of a value whose script ends with an awaited word, from its first step on.
    pub fn begin(alloc: Global, value: &Value) -> Result<Runner, Memory>
        requires { ends_waiting value.now.script ≡ true }
        ensures { IfOk result (λ r. r ≡ begun value.now.script) }
    {
        let steps = value.script.copy(alloc)?;
        let reached = wait_from(steps.as_slice(), 0);
        Ok(Runner {
            steps,
            given: 0,
            reached,
        })
    }

    /// Hears an answer of the device, as long as it hasn't said that it is finished. A word that isn't
    /// awaited is dropped; the last awaited word finishes the script.
    pub fn hear(&mut self, answer: Answer) -> Progress
        requires { self.old.left ≢ [] }
        ensures heard { self.new ≡ hearing self.old answer }
        ensures finished { (result ≡ Progress.Finished) ↔ (self.new.left ≡ []) }
    {
        let Answer::Said(said) = answer else {
            return Progress::Waiting;
        };
        self.word(said);
        if self.reached == self.steps.len() {
            return Progress::Finished;
        }
        Progress::Waiting
    }

    /// Hears a word.
    fn word(&mut self, said: WordId)
        requires { self.old.left ≢ [] }
        ensures { self.new ≡ hearing self.old (Answer.Said said) }
    {
        if let Step::Until { word } = self.steps[self.reached] {
            if said.0 == word.0 {
                self.reached = wait_from(self.steps.as_slice(), self.reached + 1);
            }
        }
    }

    /// The next order that is reached and wasn't given yet: a word and its amount.
    pub fn orders(&mut self) -> Option<(WordId, i64)>
        ensures { MatchOption result ((self.old.ready ≡ []) × (self.new ≡ self.old)) (λ o. (self.old.ready ≡ o ∷ self.new.ready) × (self.new.left ≡ self.old.left)) }
    {
        'steps: while self.given < self.steps.len() {
            if self.given == self.reached {
                return None;
            }
            let step = self.steps[self.given];
            self.given += 1;
            let order = order_of(step);
            if order.is_some() {
                return order;
            }
        }
        None
    }
}
