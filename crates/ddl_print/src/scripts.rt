ghost use Rattle.std.specs.Prelude.{◌≡◌, ◌++◌, codes, flat_map, map, OnOk};
ghost use Rattle.hs_texts.specs.CanonicalText.{apart, step_text, is_until_done as is_until_done_spec, script_line, said_text, answers_line};

use hs_base::{List, Memory};
use hs_texts::{AstSaid, AstStep, Text};
use plan_text::push_signed;

fn push_step(text: &mut Text, step: &AstStep) -> Result<(), Memory>
    ensures { OnOk result (text.new ≡ text.old ++ step_text step.now) }
{
    match step {
        AstStep::Do { word, amount } => {
            text.push_bytes(b"do ")?;
            text.push_bytes(word.as_bytes())?;
            text.push_bytes(b" ")?;
            push_signed(text, *amount)
        }
        AstStep::Until { word } => {
            text.push_bytes(b"until ")?;
            text.push_bytes(word.as_bytes())
        }
    }
}

/// Puts steps at the end, with semicolons between them.
fn push_steps(text: &mut Text, steps: &[AstStep]) -> Result<(), Memory>
    ensures { OnOk result (text.new ≡ text.old ++ apart (codes "; ") (map step_text steps.now)) }
{
    let [first, rest @ ..] = steps else {
        return Ok(());
    };
    push_step(text, first)?;
    for step in rest {
        text.push_bytes(b"; ")?;
        push_step(text, step)?;
    }
    Ok(())
}

/// Whether the script is `until done`, which a text leaves out.
fn is_until_done(steps: &[AstStep]) -> bool
    ensures { result ≡ is_until_done_spec steps.now }
{
    match steps {
        [AstStep::Until { word }] => word.as_bytes() == b"done".as_slice(),
        _ => false,
    }
}

/// Puts the line of a script at the end; nothing where it is `until done`.
pub fn push_script(text: &mut Text, steps: &[AstStep]) -> Result<(), Memory>
    ensures { OnOk result (text.new ≡ text.old ++ script_line steps.now) }
{
    if is_until_done(steps) {
        return Ok(());
    }
    text.push_bytes(b"script ")?;
    push_steps(text, steps)?;
    text.push_bytes(b"\n")
}

fn push_said(text: &mut Text, said: &AstSaid) -> Result<(), Memory>
    ensures { OnOk result (text.new ≡ text.old ++ said_text said.now) }
{
    push_signed(text, said.delay)?;
    text.push_bytes(b" ")?;
    text.push_bytes(said.word.as_bytes())
}

/// Puts words that a device says at the end, with commas between them.
fn push_words(text: &mut Text, words: &[AstSaid]) -> Result<(), Memory>
    ensures { OnOk result (text.new ≡ text.old ++ apart (codes ", ") (map said_text words.now)) }
{
    let [first, rest @ ..] = words else {
        return Ok(());
    };
    push_said(text, first)?;
    for said in rest {
        text.push_bytes(b", ")?;
        push_said(text, said)?;
    }
    Ok(())
}

fn push_answers(text: &mut Text, words: &[AstSaid]) -> Result<(), Memory>
    ensures { OnOk result (text.new ≡ text.old ++ answers_line words.now) }
{
    text.push_bytes(b"answers ")?;
    push_words(text, words)?;
    text.push_bytes(b"\n")
}

/// Puts the `answers` lines of a value at the end.
pub fn push_all_answers(text: &mut Text, answers: &[List<AstSaid>]) -> Result<(), Memory>
    ensures { OnOk result (text.new ≡ text.old ++ flat_map answers_line answers.now) }
{
    for words in answers {
        push_answers(text, words.as_slice())?;
    }
    Ok(())
}
