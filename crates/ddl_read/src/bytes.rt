ghost use Rattle.std.specs.Prelude.{◌≡◌, ◌+◌, ◌-◌, ◌<◌, ◌≤◌, true, false, length, drop, slice_range};
ghost use Rattle.std.specs.List.{list_all};
ghost use Rattle.hs_texts.specs.Pieces.{after_gap, begins, is_letter as is_letter_spec, is_digit as is_digit_spec, is_word_byte as is_word_byte_spec, is_symbol as is_symbol_spec, is_space as is_space_spec};

/// Whether a byte is an ASCII letter.
pub fn is_letter(byte: u8) -> bool
    ensures { result ≡ is_letter_spec byte }
{
    byte.is_ascii_alphabetic()
}

/// Whether a byte is an ASCII digit.
pub fn is_digit(byte: u8) -> bool
    ensures { result ≡ is_digit_spec byte }
{
    byte.is_ascii_digit()
}

/// Whether a byte may stand in a word.
pub fn is_word_byte(byte: u8) -> bool
    ensures { result ≡ is_word_byte_spec byte }
{
    is_letter(byte) || is_digit(byte) || byte == b'_'
}

/// Whether a byte is a symbol.
pub fn is_symbol(byte: u8) -> bool
    ensures { result ≡ is_symbol_spec byte }
{
    matches!(byte, b'[' | b']' | b',' | b'.' | b';' | b'-' | b'(' | b')')
}

/// Whether a byte separates pieces.
pub fn is_space(byte: u8) -> bool
    ensures { result ≡ is_space_spec byte }
{
    matches!(byte, b' ' | b'\t' | b'\n' | b'\r')
}

/// Where the spaces and comments end that begin at `at`.
pub fn gap_end(text: &[u8], at: usize) -> usize
    requires { at ≤ length text.now }
    ensures after { at ≤ result }
    ensures within { result ≤ length text.now }
    ensures gap { after_gap false (drop at text.now) ≡ drop result text.now }
{
    let mut inside = false;
    'gap: for end in at..text.len() {
        let byte = text[end];
        if inside {
            inside = byte != b'\n';
        } else if byte == b'#' {
            inside = true;
        } else if !is_space(byte) {
            return end;
        }
    }
    text.len()
}

/// Where the run of word bytes ends that begins at `at`.
pub fn word_end(text: &[u8], at: usize) -> usize
    requires inside { at < length text.now }
    requires first { begins is_word_byte_spec (drop at text.now) ≡ true }
    ensures after { at < result }
    ensures within { result ≤ length text.now }
    ensures run { list_all is_word_byte_spec (slice_range text.now at result) ≡ true }
    ensures longest { begins is_word_byte_spec (drop result text.now) ≡ false }
{
    'word: for end in at + 1..text.len() {
        if !is_word_byte(text[end]) {
            return end;
        }
    }
    text.len()
}

/// Where the run of digits ends that begins at `at`.
pub fn digits_end(text: &[u8], at: usize) -> usize
    requires inside { at < length text.now }
    requires first { begins is_digit_spec (drop at text.now) ≡ true }
    ensures after { at < result }
    ensures within { result ≤ length text.now }
    ensures run { list_all is_digit_spec (slice_range text.now at result) ≡ true }
    ensures longest { begins is_digit_spec (drop result text.now) ≡ false }
{
    'digits: for end in at + 1..text.len() {
        if !is_digit(text[end]) {
            return end;
        }
    }
    text.len()
}
