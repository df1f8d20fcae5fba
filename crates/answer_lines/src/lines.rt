ghost use Rattle.std.specs.Prelude.{◌≡◌, ◌++◌, codes, OnOk};
ghost use Rattle.std.specs.Fmt.{decimal};

use hs_base::Memory;
use hs_texts::Text;
use plan_text::push_number;

/// Words and a number.
pub(crate) fn push_part(text: &mut Text, words: &[u8], number: u64) -> Result<(), Memory>
    ensures { OnOk result (text.new ≡ text.old ++ (words.now ++ decimal number)) }
{
    text.push_bytes(words)?;
    push_number(text, number)
}

/// Words and a number, at a line's end.
pub(crate) fn push_last(text: &mut Text, words: &[u8], number: u64) -> Result<(), Memory>
    ensures { OnOk result (text.new ≡ text.old ++ (words.now ++ decimal number ++ codes "\n")) }
{
    push_part(text, words, number)?;
    text.push_bytes(b"\n")
}

/// The same of a smaller number.
pub(crate) fn push_numbered(text: &mut Text, words: &[u8], number: u32) -> Result<(), Memory>
    ensures { OnOk result (text.new ≡ text.old ++ (words.now ++ decimal number ++ codes "\n")) }
{
    push_last(text, words, u64::from(number))
}
