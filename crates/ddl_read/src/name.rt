ghost use Rattle.std.specs.Prelude.{◌≡◌, nat_eq};
ghost use Rattle.std.specs.List.{list_all, list_any};
ghost use Rattle.std.specs.Cmp.Lexicographic.{pointwise};
ghost use Rattle.hs_base.specs.Names.{is_small_letter as is_small_letter_spec, is_name_byte as is_name_byte_spec, begins_small as begins_small_spec, is_reserved as is_reserved_spec, is_name as is_name_spec};

use hs_base::NAME_BYTES;

/// Words that mean something in texts.
const RESERVED: [&[u8]; 28] = [
    b"hsts",
    b"var",
    b"value",
    b"by",
    b"device",
    b"then",
    b"script",
    b"do",
    b"until",
    b"answers",
    b"begin",
    b"need",
    b"before",
    b"after",
    b"meets",
    b"met_by",
    b"starts",
    b"ends",
    b"equals",
    b"contains",
    b"contained_by",
    b"horizon",
    b"goal",
    b"start",
    b"stop",
    b"end",
    b"inf",
    b"or",
];

/// Whether a byte is a letter from `a` to `z`.
fn is_small_letter(byte: u8) -> bool
    ensures { result ≡ is_small_letter_spec byte }
{
    byte.is_ascii_lowercase()
}

/// Whether a byte may stand in a name.
fn is_name_byte(byte: u8) -> bool
    ensures { result ≡ is_name_byte_spec byte }
{
    is_small_letter(byte) || byte.is_ascii_digit() || byte == b'_'
}

/// Whether all bytes may stand in a name.
fn are_name_bytes(word: &[u8]) -> bool
    ensures { result ≡ list_all is_name_byte_spec word.now }
{
    word.iter().all(|byte| is_name_byte(*byte))
}

/// Whether a word begins as a name does.
fn begins_small(word: &[u8]) -> bool
    ensures { result ≡ begins_small_spec word.now }
{
    match word {
        [first, ..] => is_small_letter(*first),
        [] => false,
    }
}

/// Whether a word is one of these.
fn is_one_of(word: &[u8], words: &[&[u8]]) -> bool
    ensures { result ≡ list_any (λ w. pointwise nat_eq word.now w.now) words.now }
{
    'words: for other in words {
        if word == *other {
            return true;
        }
    }
    false
}

/// Whether a word means something in texts, and so is no name.
fn is_reserved(word: &[u8]) -> bool
    ensures { result ≡ is_reserved_spec word.now }
{
    is_one_of(word, &RESERVED)
}

/// Whether a word is a name.
#[tactic(auto, unfolding(hs_base::specs::Names::is_name))]
pub fn is_name(word: &[u8]) -> bool
    ensures { result ≡ is_name_spec word.now }
{
    begins_small(word) && are_name_bytes(word) && word.len() <= NAME_BYTES && !is_reserved(word)
}
