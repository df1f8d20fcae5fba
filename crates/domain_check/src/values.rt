ghost use Rattle.std.specs.Prelude.{◌≡◌, map, IfOk};
ghost use Rattle.domain_check.specs.Numbering.{word_id as word_id_spec, value_id as value_id_spec, step_of as step_of_spec, said_of as said_of_spec, range_of as range_of_spec, value_of as value_of_spec, begin_of as begin_of_spec, var_of as var_of_spec};
ghost use Rattle.hs_texts.specs.MissionMeaning.{value_names};
ghost use Rattle.domain_check.specs.Tables.{names_in};

use crate::names::Names;
use hs_base::{Copies, LAST, List, Memory, Name, Range, Said, Step, ValId, Value, Var, WordId};
use hs_texts::{AstSaid, AstStep, AstValue, AstVar, Use};
use std::alloc::Global;

fn word_id(words: &Names, name: &Name) -> WordId
    ensures { result ≡ word_id_spec (names_in words.now) name.now }
{
    WordId(words.number(name))
}

fn value_id(names: &Names, value: &Use) -> ValId
    ensures { result ≡ value_id_spec (names_in names.now) value.now }
{
    ValId(names.number(&value.name))
}

fn next_of(alloc: Global, names: &Names, next: &[Use]) -> Result<List<ValId>, Memory>
    ensures { IfOk result (λ ids. ids ≡ map (value_id_spec (names_in names.now)) next.now) }
{
    let mut ids = List::new(alloc);
    for value in next {
        ids.push(value_id(names, value))?;
    }
    Ok(ids)
}

fn step_of(words: &Names, step: &AstStep) -> Step
    ensures { result ≡ step_of_spec (names_in words.now) step.now }
{
    match step {
        AstStep::Do { word, amount } => Step::Do {
            word: word_id(words, word),
            amount: *amount,
        },
        AstStep::Until { word } => Step::Until {
            word: word_id(words, word),
        },
    }
}

fn script_of(alloc: Global, words: &Names, steps: &[AstStep]) -> Result<List<Step>, Memory>
    ensures { IfOk result (λ script. script ≡ map (step_of_spec (names_in words.now)) steps.now) }
{
    let mut script = List::new(alloc);
    for step in steps {
        script.push(step_of(words, step))?;
    }
    Ok(script)
}

fn said_of(alloc: Global, words: &Names, answers: &[AstSaid]) -> Result<List<Said>, Memory>
    ensures { IfOk result (λ said. said ≡ map (said_of_spec (names_in words.now)) answers.now) }
{
    let mut said = List::new(alloc);
    for answer in answers {
        said.push(Said {
            delay: answer.delay,
            word: word_id(words, &answer.word),
        })?;
    }
    Ok(said)
}

fn answers_of(
    alloc: Global,
    words: &Names,
    clauses: &[List<AstSaid>],
) -> Result<List<List<Said>>, Memory>
    ensures { IfOk result (λ answers. answers ≡ map (map (said_of_spec (names_in words.now))) clauses.now) }
{
    let mut answers = List::new(alloc);
    for clause in clauses {
        answers.push(said_of(alloc, words, clause.as_slice())?)?;
    }
    Ok(answers)
}

/// The range of a value; a text of version 1 or 2 gives it one.
fn range_of(lasts: &[Range]) -> Range
    ensures { result ≡ range_of_spec lasts.now }
{
    match lasts {
        [range, ..] => *range,
        [] => Range { low: 0, high: LAST },
    }
}

fn value_of(alloc: Global, words: &Names, names: &Names, value: &AstValue) -> Result<Value, Memory>
    ensures { IfOk result (λ made. made ≡ value_of_spec (names_in words.now) (names_in names.now) value.now) }
{
    Ok(Value {
        name: value.name.copy(alloc)?,
        lasts: range_of(value.lasts.as_slice()),
        by_device: value.by_device,
        next: next_of(alloc, names, value.next.as_slice())?,
        script: script_of(alloc, words, value.script.as_slice())?,
        answers: answers_of(alloc, words, value.answers.as_slice())?,
    })
}

fn values_of(
    alloc: Global,
    words: &Names,
    names: &Names,
    values: &[AstValue],
) -> Result<List<Value>, Memory>
    ensures { IfOk result (λ made. made ≡ map (value_of_spec (names_in words.now) (names_in names.now)) values.now) }
{
    let mut made = List::new(alloc);
    for value in values {
        made.push(value_of(alloc, words, names, value)?)?;
    }
    Ok(made)
}

fn begin_of(names: &Names, begin: &Option<Use>) -> ValId
    ensures { result ≡ begin_of_spec (names_in names.now) begin.now }
{
    match begin {
        Some(value) => value_id(names, value),
        None => ValId(0),
    }
}

/// A variable with numbers in place of names.
pub fn var_of(alloc: Global, words: &Names, names: &Names, var: &AstVar) -> Result<Var, Memory>
    requires { names_in names.now ≡ value_names var.now }
    ensures { IfOk result (λ made. made ≡ var_of_spec (names_in words.now) var.now) }
{
    Ok(Var {
        name: var.name.copy(alloc)?,
        values: values_of(alloc, words, names, var.values.as_slice())?,
        begin: begin_of(names, &var.begin),
    })
}
