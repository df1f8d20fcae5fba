ghost use Rattle.std.specs.Prelude.{◌≡◌, ◌++◌, OnOk};
ghost use Rattle.hs_texts.specs.CanonicalText.{limit_text, range_text, use_text, kind_text};

use hs_base::{LAST, Memory, Range};
use hs_texts::{AstKind, Text, Use};
use plan_text::push_signed;

/// Puts a limit of a range at the end; the last tick is `inf`.
fn push_limit(text: &mut Text, limit: i64) -> Result<(), Memory>
    ensures { OnOk result (text.new ≡ text.old ++ limit_text limit) }
{
    if limit == LAST {
        return text.push_bytes(b"inf");
    }
    push_signed(text, limit)
}

/// Puts a range at the end, as `[3,inf]`.
pub fn push_range(text: &mut Text, range: Range) -> Result<(), Memory>
    ensures { OnOk result (text.new ≡ text.old ++ range_text range) }
{
    text.push_bytes(b"[")?;
    push_limit(text, range.low)?;
    text.push_bytes(b",")?;
    push_limit(text, range.high)?;
    text.push_bytes(b"]")
}

/// Puts the name of a value at the end.
pub fn push_use(text: &mut Text, value: &Use) -> Result<(), Memory>
    ensures { OnOk result (text.new ≡ text.old ++ use_text value.now) }
{
    text.push_bytes(value.name.as_bytes())
}

/// Puts a variable and a value of it at the end, as `camera.shoot`.
pub fn push_kind(text: &mut Text, kind: &AstKind) -> Result<(), Memory>
    ensures { OnOk result (text.new ≡ text.old ++ kind_text kind.now) }
{
    text.push_bytes(kind.sv.as_bytes())?;
    text.push_bytes(b".")?;
    push_use(text, &kind.value)
}
