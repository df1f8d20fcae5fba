ghost use Rattle.std.specs.Prelude.{◌≡◌, codes, flat_map, map, IfOk, OnOk};
ghost use Rattle.hs_texts.specs.declared.ast.AstVar.{AstVar as WrittenVar};
ghost use Rattle.hs_texts.specs.MissionMeaning.{first_seen, step_word, words_of_value, word_table};
ghost use Rattle.domain_check.specs.Tables.{names_in, words_said};

use crate::names::Names;
use hs_base::{List, Memory, Name};
use hs_texts::{Ast, AstSaid, AstStep, AstValue, AstVar};
use std::alloc::Global;

/// The word of a step.
pub fn word_of(step: &AstStep) -> &Name
    ensures { result.now ≡ step_word step.now }
{
    match step {
        AstStep::Do { word, amount: _ } => word,
        AstStep::Until { word } => word,
    }
}

fn add_steps<'a>(words: &mut Names<'a>, steps: &'a [AstStep]) -> Result<(), Memory>
    ensures { OnOk result (names_in words.new ≡ first_seen (names_in words.old) (map step_word steps.now)) }
{
    for step in steps {
        words.add(word_of(step))?;
    }
    Ok(())
}

fn add_said<'a>(words: &mut Names<'a>, said: &'a [AstSaid]) -> Result<(), Memory>
    ensures { OnOk result (names_in words.new ≡ first_seen (names_in words.old) (words_said said.now)) }
{
    for answer in said {
        words.add(&answer.word)?;
    }
    Ok(())
}

fn add_answers<'a>(words: &mut Names<'a>, answers: &'a [List<AstSaid>]) -> Result<(), Memory>
    ensures { OnOk result (names_in words.new
        ≡ first_seen (names_in words.old) (flat_map words_said answers.now)) }
{
    for said in answers {
        add_said(words, said.as_slice())?;
    }
    Ok(())
}

fn add_value<'a>(words: &mut Names<'a>, value: &'a AstValue) -> Result<(), Memory>
    ensures { OnOk result (names_in words.new ≡ first_seen (names_in words.old) (words_of_value value.now)) }
{
    add_steps(words, value.script.as_slice())?;
    add_answers(words, value.answers.as_slice())
}

fn add_values<'a>(words: &mut Names<'a>, values: &'a [AstValue]) -> Result<(), Memory>
    ensures { OnOk result (names_in words.new ≡ first_seen (names_in words.old) (flat_map words_of_value values.now)) }
{
    for value in values {
        add_value(words, value)?;
    }
    Ok(())
}

fn add_vars<'a>(words: &mut Names<'a>, vars: &'a [AstVar]) -> Result<(), Memory>
    ensures { OnOk result (names_in words.new
        ≡ first_seen (names_in words.old) (flat_map (λ (var : WrittenVar). flat_map words_of_value var.values) vars.now)) }
{
    for var in vars {
        add_values(words, var.values.as_slice())?;
    }
    Ok(())
}

/// The words of the scripts and answers behind `done`, each where it is seen first.
pub fn words_of<'a>(alloc: Global, done: &'a Name, ast: &'a Ast) -> Result<Names<'a>, Memory>
    requires { done.now ≡ codes "done" }
    ensures { IfOk result (λ words. names_in words ≡ word_table ast.now) }
{
    let mut words = Names::new(alloc);
    words.add(done)?;
    add_vars(&mut words, ast.vars.as_slice())?;
    Ok(words)
}
