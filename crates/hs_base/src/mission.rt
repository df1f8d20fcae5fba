ghost use Rattle.std.specs.Prelude.{◌≡◌, filter, slice_get, option_copied};
ghost use Rattle.hs_base.specs.Points.{value_of};
ghost use Rattle.hs_base.specs.Needs.{same_kind, needs_of, choice_by, is_deferrable};

use crate::{Copies, List, Memory, Name, Range, Relation, Same, SvId, ValId, WordId};
use std::alloc::Global;

/// A value of a state variable.
#[derive(Clone, Copy, Debug, PartialEq, Eq)]
pub struct Kind {
    pub sv: SvId,
    pub value: ValId,
}

impl Kind {
    /// Whether the two are one kind.
    pub fn is(self, other: Kind) -> bool
        ensures { result ≡ same_kind self other }
    {
        self.sv.0 == other.sv.0 && self.value.0 == other.value.0
    }
}

impl Copies for Kind {
    fn copy(&self, _alloc: Global) -> Result<Kind, Memory> {
        Ok(*self)
    }
}

impl Same for Kind {
    fn same(&self, other: &Kind) -> bool {
        self.sv.same(&other.sv) && self.value.same(&other.value)
    }
}

/// A step of a device's script: an order with its amount, or the word that is awaited.
#[derive(Clone, Copy, Debug, PartialEq, Eq)]
pub enum Step {
    Do { word: WordId, amount: i64 },
    Until { word: WordId },
}

impl Copies for Step {
    fn copy(&self, _alloc: Global) -> Result<Step, Memory> {
        Ok(*self)
    }
}

impl Same for Step {
    fn same(&self, other: &Step) -> bool {
        match (self, other) {
            (Step::Do { word: a, amount: x }, Step::Do { word: b, amount: y }) => {
                a.same(b) && *x == *y
            }
            (Step::Until { word: a }, Step::Until { word: b }) => a.same(b),
            _ => false,
        }
    }
}

/// A word that the simulated device says `delay` ticks after its script begins.
#[derive(Clone, Copy, Debug, PartialEq, Eq)]
pub struct Said {
    pub delay: i64,
    pub word: WordId,
}

impl Copies for Said {
    fn copy(&self, _alloc: Global) -> Result<Said, Memory> {
        Ok(*self)
    }
}

impl Same for Said {
    fn same(&self, other: &Said) -> bool {
        self.delay == other.delay && self.word.same(&other.word)
    }
}

/// What a state variable may be: how many ticks it lasts, whether a device ends it, and which
/// values may follow. `script` and `answers` are empty where no device ends it.
#[derive(Debug, PartialEq, Drop)]
pub struct Value {
    pub name: Name,
    pub lasts: Range,
    pub by_device: bool,
    pub next: List<ValId>,
    pub script: List<Step>,
    pub answers: List<List<Said>>,
}

impl Copies for Value {
    fn copy(&self, alloc: Global) -> Result<Value, Memory> {
        Ok(Value {
            name: self.name.copy(alloc)?,
            lasts: self.lasts,
            by_device: self.by_device,
            next: self.next.copy(alloc)?,
            script: self.script.copy(alloc)?,
            answers: self.answers.copy(alloc)?,
        })
    }
}

impl Same for Value {
    fn same(&self, other: &Value) -> bool {
        self.name.same(&other.name)
            && self.lasts.same(&other.lasts)
            && self.by_device == other.by_device
            && self.next.same(&other.next)
            && self.script.same(&other.script)
            && self.answers.same(&other.answers)
    }
}

/// A state variable, with the value that it begins with.
#[derive(Debug, PartialEq, Drop)]
pub struct Var {
    pub name: Name,
    pub values: List<Value>,
    pub begin: ValId,
}

impl Copies for Var {
    fn copy(&self, alloc: Global) -> Result<Var, Memory> {
        Ok(Var {
            name: self.name.copy(alloc)?,
            values: self.values.copy(alloc)?,
            begin: self.begin,
        })
    }
}

impl Same for Var {
    fn same(&self, other: &Var) -> bool {
        self.name.same(&other.name)
            && self.values.same(&other.values)
            && self.begin.same(&other.begin)
    }
}

/// One way to serve a need: a token of that kind in that relation.
#[derive(Clone, Copy, Debug, PartialEq, Eq)]
pub struct Choice {
    pub relation: Relation,
    pub by: Kind,
}

impl Copies for Choice {
    fn copy(&self, _alloc: Global) -> Result<Choice, Memory> {
        Ok(*self)
    }
}

impl Same for Choice {
    fn same(&self, other: &Choice) -> bool {
        self.relation.same(&other.relation) && self.by.same(&other.by)
    }
}

/// What each token of a kind asks of other timelines: one of the choices.
#[derive(Debug, PartialEq, Drop)]
pub struct Need {
    pub of: Kind,
    pub either: List<Choice>,
}

impl Need {
    /// The choice that a token of the kind serves.
    pub fn choice(&self, kind: Kind) -> Option<&Choice>
        ensures { option_copied result ≡ choice_by self.now kind }
    {
        self.either
            .as_slice()
            .iter()
            .find(|choice| choice.by.is(kind))
    }

    /// Whether it may be left to a later plan while its token is the last of its timeline.
    pub fn is_deferrable(&self) -> bool
        ensures { result ≡ is_deferrable self.now }
    {
        self.either
            .as_slice()
            .iter()
            .any(|choice| choice.relation.may_wait())
    }
}

/// The need of that number among those of the kind.
#[tactic(auto, using(crate::proofs::NeedLemmas::filter_at))]
fn need_among(needs: &[Need], kind: Kind, number: u32) -> Option<&Need>
    ensures { option_copied result ≡ slice_get (filter (λ n. same_kind n.of kind) needs.now) number }
{
    let mut left = number;
    for need in needs {
        if need.of.is(kind) {
            if left == 0 {
                return Some(need);
            }
            left -= 1;
        }
    }
    None
}

impl Copies for Need {
    fn copy(&self, alloc: Global) -> Result<Need, Memory> {
        Ok(Need {
            of: self.of,
            either: self.either.copy(alloc)?,
        })
    }
}

impl Same for Need {
    fn same(&self, other: &Need) -> bool {
        self.of.same(&other.of) && self.either.same(&other.either)
    }
}

/// A token that a horizon's plan has to have, with the ticks at which it may start and stop.
#[derive(Clone, Copy, Debug, PartialEq, Eq)]
pub struct Goal {
    pub kind: Kind,
    pub start: Range,
    pub stop: Range,
}

impl Copies for Goal {
    fn copy(&self, _alloc: Global) -> Result<Goal, Memory> {
        Ok(*self)
    }
}

impl Same for Goal {
    fn same(&self, other: &Goal) -> bool {
        self.kind.same(&other.kind) && self.start.same(&other.start) && self.stop.same(&other.stop)
    }
}

/// A tick up to which is planned, and the goals of that plan.
#[derive(Debug, PartialEq, Drop)]
pub struct Horizon {
    pub tick: i64,
    pub goals: List<Goal>,
}

impl Copies for Horizon {
    fn copy(&self, alloc: Global) -> Result<Horizon, Memory> {
        Ok(Horizon {
            tick: self.tick,
            goals: self.goals.copy(alloc)?,
        })
    }
}

impl Same for Horizon {
    fn same(&self, other: &Horizon) -> bool {
        self.tick == other.tick && self.goals.same(&other.goals)
    }
}

/// A mission: the machine, what is wanted of it, and the words of its scripts.
#[derive(Debug, PartialEq, Drop)]
pub struct Mission {
    pub vars: List<Var>,
    pub needs: List<Need>,
    pub horizons: List<Horizon>,
    pub words: List<Name>,
}

impl Mission {
    /// The value of that kind.
    pub fn value(&self, kind: Kind) -> Option<&Value>
        ensures { option_copied result ≡ value_of self.now kind }
    {
        let var = self.vars.as_slice().get(kind.sv.0 as usize)?;
        var.values.as_slice().get(kind.value.0 as usize)
    }

    /// The need of that number among those of the kind.
    pub fn need(&self, kind: Kind, number: u32) -> Option<&Need>
        ensures { option_copied result ≡ slice_get (needs_of self.now kind) number }
    {
        need_among(self.needs.as_slice(), kind, number)
    }
}

impl Copies for Mission {
    fn copy(&self, alloc: Global) -> Result<Mission, Memory> {
        Ok(Mission {
            vars: self.vars.copy(alloc)?,
            needs: self.needs.copy(alloc)?,
            horizons: self.horizons.copy(alloc)?,
            words: self.words.copy(alloc)?,
        })
    }
}

impl Same for Mission {
    fn same(&self, other: &Mission) -> bool {
        self.vars.same(&other.vars)
            && self.needs.same(&other.needs)
            && self.horizons.same(&other.horizons)
            && self.words.same(&other.words)
    }
}
