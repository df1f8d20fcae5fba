ghost use Rattle.std.specs.Prelude.{◌≡◌, ◌++◌, codes, IfOk, OnOk};
ghost use Rattle.hs_texts.specs.RefusalText.{refusal_line as line_of};

use crate::lines::push_numbered;
use hs_base::{Memory, Name};
use hs_texts::{Refusal, Text};
use std::alloc::Global;

/// A line that ends with a name.
fn push_named(text: &mut Text, words: &[u8], name: &Name) -> Result<(), Memory>
    ensures { OnOk result (text.new ≡ text.old ++ (words.now ++ name.now ++ codes "\n")) }
{
    text.push_bytes(words)?;
    text.push_bytes(name.as_bytes())?;
    text.push_bytes(b"\n")
}

/// Puts the line of a refusal at the end; want of memory has none.
pub fn push_refusal(text: &mut Text, refusal: &Refusal) -> Result<(), Memory>
    ensures { OnOk result (text.new ≡ text.old ++ line_of refusal.now) }
{
    match refusal {
        Refusal::NotUtf8 { at } => push_numbered(text, b"refused 1 at ", *at),
        Refusal::Char { at } => push_numbered(text, b"refused 2 at ", *at),
        Refusal::Expected { at } => push_numbered(text, b"refused 3 at ", *at),
        Refusal::Number { at } => push_numbered(text, b"refused 4 at ", *at),
        Refusal::Trailing { at } => push_numbered(text, b"refused 5 at ", *at),
        Refusal::Twice { name } => push_named(text, b"refused 6 twice ", name),
        Refusal::Unknown { name } => push_named(text, b"refused 7 unknown ", name),
        Refusal::Range { item } => push_numbered(text, b"refused 8 range ", *item),
        Refusal::Limit { which } => push_numbered(text, b"refused 9 limit ", *which),
        Refusal::NoBegin { name } => push_named(text, b"refused 10 begin ", name),
        Refusal::Horizons { item } => push_numbered(text, b"refused 11 horizon ", *item),
        Refusal::SameVar { item } => push_numbered(text, b"refused 12 need ", *item),
        Refusal::SameBy { item } => push_numbered(text, b"refused 13 either ", *item),
        Refusal::Memory => Ok(()),
    }
}

/// The line of a refusal.
pub fn refusal_line(alloc: Global, refusal: &Refusal) -> Result<Text, Memory>
    ensures { IfOk result (λ text. text ≡ line_of refusal.now) }
{
    let mut text = Text::new(alloc);
    push_refusal(&mut text, refusal)?;
    Ok(text)
}
