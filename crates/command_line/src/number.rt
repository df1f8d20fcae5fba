ghost use Rattle.std.specs.Prelude.{◌≡◌, option_map};
ghost use Rattle.std.specs.List.{list_all};
ghost use Rattle.std.specs.Char.{is_ascii_digit};
ghost use Rattle.command_line.specs.Found.{read_or};
ghost use Rattle.command_line.specs.Words.{is_numeral, number_of, number_up_to};

// Fewer digits than the largest u64 has, so that each number of so many digits is one.
const MOST_DIGITS: usize = 19;

fn has_only_digits(text: &str) -> bool
    ensures { result ≡ list_all is_ascii_digit text.now }
{
    text.as_bytes().iter().all(|byte| byte.is_ascii_digit())
}

// Whether the text is 1 to 19 decimal digits.
fn is_number(text: &str) -> bool
    ensures { result ≡ is_numeral text.now }
{
    !text.is_empty() && text.len() <= MOST_DIGITS && has_only_digits(text)
}

/// The number that 1 to 19 decimal digits spell.
pub(crate) fn read_number(text: &str) -> Option<u64>
    ensures { result ≡ number_of text.now }
{
    if !is_number(text) {
        return None;
    }
    text.parse::<u64>().ok()
}

// The number that the text spells, if it is one of 1 to `most`.
fn read_up_to(text: &str, most: u64) -> Option<u64>
    ensures { result ≡ number_up_to most text.now }
{
    read_number(text).filter(|number| (1..=most).contains(number))
}

/// The number that the text spells, if it is one of 1 to `most`, or the default for no text.
pub(crate) fn read_number_or(text: Option<&str>, default: u64, most: u64) -> Option<u64>
    ensures { result ≡ read_or default (number_up_to most) (option_map (λ t. t.now) text.entry) }
{
    match text {
        Some(text) => read_up_to(text, most),
        None => Some(default),
    }
}
