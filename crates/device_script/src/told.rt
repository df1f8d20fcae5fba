ghost use Rattle.std.specs.Prelude.{◌≡◌, [], ◌↔◌, ◌⊎◌, ◌<◌, IfOk, IsOk, OnErr, None, IsTrue, drop, get_or, set, slice_get};
ghost use Rattle.device_script.specs.Sayings.{Answers, IsDue, begins, clauses_after, loaded, next_clause, silent, told};
ghost use Rattle.device_script.specs.Telling.{all_coming, words_at};

use hs_base::{Copies, List, Memory, Said, ValId, Var};
use hs_port::{Answer, Device, Failed, Order};
use std::alloc::Global;
use std::marker::Model;

/// The answers of a value, clause by clause, and the number of the clause of its next token.
#[derive(Drop)]
struct Turns {
    clauses: List<List<Said>>,
    next: usize,
}

/// The clause whose words are said: its value, its number, how many of its words were said, and the
/// tick of the begin.
#[derive(Clone, Copy)]
struct Running {
    value: usize,
    clause: usize,
    spoken: usize,
    begun: i64,
}

/// The simulated device, which says what its variable's values have as answers: at each begin of a
/// token the words of the next clause of its value, or of the last one again, each once its delay,
/// in ticks, is over, and at most one word at each poll. A new begin drops what is left of the
/// clause before. Contracts see what it has to say.
#[derive(Drop)]
pub struct Told {
    values: Option<Vec<Turns>>,
    running: Option<Running>,
}

impl Model for Told {
    ghost use Rattle.device_script.specs.Sayings.{Saying};

    ghost Value = { Saying };

    ghost use Rattle.device_script.specs.Telling.{saying_of};

    ghost view = { saying_of };
}

/// The answers of a variable's values, each to begin with its first clause.
fn turns_of(alloc: Global, var: &Var) -> Result<Vec<Turns>, Memory>
    ensures { IfOk result (λ turns. all_coming (Some turns) ≡ (loaded var.now).values) }
{
    let mut turns = Vec::with_capacity(alloc, var.values.len())?;
    for i in 0..var.values.len() {
        turns.push(Turns {
            clauses: var.values[i].answers.copy(alloc)?,
            next: 0,
        })?;
    }
    Ok(turns)
}

/// Takes the next clause: gives its number, and goes on to the one after it, if there is one.
fn take_clause(turns: &mut Turns) -> usize
    ensures words { get_or turns.new.clauses result [] ≡ next_clause (drop turns.old.next turns.old.clauses) }
    ensures next { drop turns.new.next turns.new.clauses ≡ clauses_after (drop turns.old.next turns.old.clauses) }
    ensures same { turns.new.clauses ≡ turns.old.clauses }
{
    let clause = turns.next;
    let count = turns.clauses.len();
    if clause < count.saturating_sub(1) {
        turns.next = clause + 1;
    }
    clause
}

/// Takes the next clause of a value.
fn take_of(values: &mut Option<Vec<Turns>>, value: usize) -> usize
    ensures words { words_at values.new value result ≡ next_clause (get_or (all_coming values.old) value []) }
    ensures next { all_coming values.new ≡ set (all_coming values.old) value (clauses_after (get_or (all_coming values.old) value [])) }
{
    let Some(turns) = values else {
        return 0;
    };
    if value >= turns.len() {
        return 0;
    }
    take_clause(&mut turns[value])
}

/// The word of a number, from 0, of a clause of a value.
fn word_at(values: &Option<Vec<Turns>>, value: usize, clause: usize, number: usize) -> Option<Said>
    ensures word { result ≡ slice_get (words_at values.now value clause) number }
    ensures within { (result ≡ None) ⊎ (number < usize.MAX) }
{
    let Some(turns) = values else {
        return None;
    };
    if value >= turns.len() || clause >= turns[value].clauses.len() {
        return None;
    }
    turns[value].clauses[clause].as_slice().get(number).copied()
}

/// Whether the delay of a word is over.
fn is_due(running: Running, word: Said, now: i64) -> bool
    ensures { IsTrue result ↔ IsDue running.begun now word }
{
    match running.begun.checked_add(word.delay) {
        Some(due) => due <= now,
        None => word.delay < 0,
    }
}

impl Told {
    /// A device that answers nothing as long as it isn't loaded.
    pub fn new() -> Told
        ensures { result ≡ silent }
    {
        Told {
            values: None,
            running: None,
        }
    }

    /// How many faults were counted: none.
    pub fn count(&self) -> u64
        ensures { result ≡ 0 }
    {
        0
    }

    /// A token of a value began.
    fn begin(&mut self, value: ValId, now: i64)
        ensures { self.new ≡ begins value.0 now self.old }
    {
        let value = value.0 as usize;
        let clause = take_of(&mut self.values, value);
        self.running = Some(Running {
            value,
            clause,
            spoken: 0,
            begun: now,
        });
    }

    /// The next word, where its delay is over.
    fn next_word(&mut self, now: i64) -> Answer
        ensures { Answers self.old now result self.new }
    {
        let Some(running) = &mut self.running else {
            return Answer::Quiet;
        };
        let word = word_at(&self.values, running.value, running.clause, running.spoken);
        let Some(said) = word else {
            return Answer::Quiet;
        };
        if !is_due(*running, said, now) {
            return Answer::Quiet;
        }
        running.spoken += 1;
        Answer::Said(said.word)
    }
}

impl Device for Told {
    ghost polls = { λ s. None };

    ghost faults = { λ s. 0 };

    fn load(&mut self, alloc: Global, var: &Var) -> Result<(), Memory>
        ensures ok { IfOk result (λ _. self.new ≡ loaded var.now) }
        ensures err { OnErr result (self.new ≡ self.old) }
    {
        let turns = turns_of(alloc, var)?;
        self.values = Some(turns);
        self.running = None;
        Ok(())
    }

    fn tell(&mut self, order: Order) -> Result<(), Failed>
        ensures sure { IsOk result }
        ensures told { self.new ≡ told order self.old }
    {
        if let Order::Begin { value, now } = order {
            self.begin(value, now);
        }
        Ok(())
    }

    fn poll(&mut self, now: i64) -> Result<Answer, Failed>
        ensures sure { IsOk result }
        ensures answer { IfOk result (λ a. Answers self.old now a self.new) }
    {
        Ok(self.next_word(now))
    }
}
