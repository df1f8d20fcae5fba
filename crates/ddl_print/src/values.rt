ghost use Rattle.std.specs.Prelude.{◌≡◌, ◌++◌, [], cond, codes, flat_map, map, OnOk};
ghost use Rattle.hs_texts.specs.CanonicalText.{apart, use_text, next_text, lasts_text, script_line, answers_line, value_lines, begin_line, var_lines};

use crate::parts::{push_range, push_use};
use crate::scripts::{push_all_answers, push_script};
use hs_base::{Memory, Range};
use hs_texts::{AstValue, AstVar, Text, Use};

/// Puts ranges at the end, with a space between them.
fn push_lasts(text: &mut Text, ranges: &[Range]) -> Result<(), Memory>
    ensures { OnOk result (text.new ≡ text.old ++ lasts_text ranges.now) }
{
    let [first, rest @ ..] = ranges else {
        return Ok(());
    };
    push_range(text, *first)?;
    for range in rest {
        text.push_bytes(b" ")?;
        push_range(text, *range)?;
    }
    Ok(())
}

/// Puts names of values at the end, with commas between them.
fn push_uses(text: &mut Text, values: &[Use]) -> Result<(), Memory>
    ensures { OnOk result (text.new ≡ text.old ++ apart (codes ", ") (map use_text values.now)) }
{
    let [first, rest @ ..] = values else {
        return Ok(());
    };
    push_use(text, first)?;
    for value in rest {
        text.push_bytes(b", ")?;
        push_use(text, value)?;
    }
    Ok(())
}

/// Puts the values at the end that may follow; nothing where there are none.
fn push_next(text: &mut Text, next: &[Use]) -> Result<(), Memory>
    ensures { OnOk result (text.new ≡ text.old ++ next_text next.now) }
{
    if next.is_empty() {
        return Ok(());
    }
    text.push_bytes(b" then ")?;
    push_uses(text, next)
}

/// Puts at the end that a device ends a value, where it does.
fn push_by_device(text: &mut Text, by_device: bool) -> Result<(), Memory>
    ensures { OnOk result (text.new ≡ text.old ++ cond by_device (codes " by device") []) }
{
    if !by_device {
        return Ok(());
    }
    text.push_bytes(b" by device")
}

/// Puts the lines at the end that only a value that a device ends has.
fn push_device_lines(text: &mut Text, value: &AstValue) -> Result<(), Memory>
    ensures { OnOk result (text.new ≡ text.old
        ++ cond value.now.by_device (script_line value.now.script ++ flat_map answers_line value.now.answers) []) }
{
    if !value.by_device {
        return Ok(());
    }
    push_script(text, value.script.as_slice())?;
    push_all_answers(text, value.answers.as_slice())
}

fn push_value(text: &mut Text, value: &AstValue) -> Result<(), Memory>
    ensures { OnOk result (text.new ≡ text.old ++ value_lines value.now) }
{
    text.push_bytes(b"value ")?;
    text.push_bytes(value.name.as_bytes())?;
    text.push_bytes(b" ")?;
    push_lasts(text, value.lasts.as_slice())?;
    push_by_device(text, value.by_device)?;
    push_next(text, value.next.as_slice())?;
    text.push_bytes(b"\n")?;
    push_device_lines(text, value)
}

fn push_values(text: &mut Text, values: &[AstValue]) -> Result<(), Memory>
    ensures { OnOk result (text.new ≡ text.old ++ flat_map value_lines values.now) }
{
    for value in values {
        push_value(text, value)?;
    }
    Ok(())
}

fn push_begin(text: &mut Text, begin: &Option<Use>) -> Result<(), Memory>
    ensures { OnOk result (text.new ≡ text.old ++ begin_line begin.now) }
{
    let Some(value) = begin else {
        return Ok(());
    };
    text.push_bytes(b"begin ")?;
    push_use(text, value)?;
    text.push_bytes(b"\n")
}

fn push_var(text: &mut Text, var: &AstVar) -> Result<(), Memory>
    ensures { OnOk result (text.new ≡ text.old ++ var_lines var.now) }
{
    text.push_bytes(b"var ")?;
    text.push_bytes(var.name.as_bytes())?;
    text.push_bytes(b"\n")?;
    push_values(text, var.values.as_slice())?;
    push_begin(text, &var.begin)
}

/// Puts the lines of the variables at the end.
pub fn push_vars(text: &mut Text, vars: &[AstVar]) -> Result<(), Memory>
    ensures { OnOk result (text.new ≡ text.old ++ flat_map var_lines vars.now) }
{
    for var in vars {
        push_var(text, var)?;
    }
    Ok(())
}
