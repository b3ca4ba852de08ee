//! Bytes at the front of a text.

ghost use Rattle.std.specs.Prelude.{◌≡◌, ◌≤◌, ◌==◌, length, slice_index};
ghost use Rattle.std.specs.List.{prefix_len};
ghost use Rattle.just_lexer.specs.Classes as spec;

pub fn byte_at(text: &[u8], index: usize) -> u8
    ensures { result ≡ slice_index text.now index }
{
    text.get(index).copied().unwrap_or(0)
}

pub fn first(text: &[u8]) -> u8
    ensures { result ≡ spec.first text.now }
{
    byte_at(text, 0)
}

pub fn second(text: &[u8]) -> u8
    ensures { result ≡ spec.second text.now }
{
    byte_at(text, 1)
}

pub fn at_two(text: &[u8], a: u8, b: u8) -> bool
    ensures { result ≡ spec.at_two a b text.now }
{
    first(text) == a && second(text) == b
}

pub fn is_letter(b: u8) -> bool
    ensures { result ≡ spec.is_letter b }
{
    b.is_ascii_alphabetic() || b == b'_'
}

fn is_word(b: u8) -> bool
    ensures { result ≡ spec.is_word b }
{
    b.is_ascii_alphanumeric() || b == b'_' || b == b'-'
}

pub fn is_blank(b: u8) -> bool
    ensures { result ≡ spec.is_blank b }
{
    b == b' ' || b == b'\t'
}

pub fn is_quote(b: u8) -> bool
    ensures { result ≡ spec.is_quote b }
{
    b == b'\'' || b == b'"'
}

pub fn word_len(text: &[u8]) -> usize
    ensures { result ≡ prefix_len spec.is_word text.now }
{
    text.iter().take_while(|b| is_word(**b)).count()
}

pub fn blank_len(text: &[u8]) -> usize
    ensures len { result ≡ spec.blank_len text.now }
    ensures within { result ≤ length text.now }
{
    text.iter().take_while(|b| is_blank(**b)).count()
}

pub fn run_len(text: &[u8], byte: u8) -> usize
    ensures { result ≡ prefix_len (λ b. b == byte) text.now }
{
    text.iter().take_while(|b| **b == byte).count()
}

pub fn line_end_len(text: &[u8]) -> usize
    ensures { result ≡ spec.line_end_len text.now }
{
    if first(text) == b'\n' {
        1
    } else if at_two(text, b'\r', b'\n') {
        2
    } else {
        0
    }
}

pub fn at_line_end(text: &[u8]) -> bool
    ensures { result ≡ spec.at_line_end text.now }
{
    0 < line_end_len(text)
}

/// The length of the line end after a backslash; 0 where they don't stand here.
pub fn continued_len(text: &[u8]) -> usize
    ensures { result ≡ spec.continued_len text.now }
{
    if first(text) == b'\\' {
        line_end_len(&text[1..])
    } else {
        0
    }
}

pub fn at_continuation(text: &[u8]) -> bool
    ensures { result ≡ spec.at_continuation text.now }
{
    0 < continued_len(text)
}

pub fn at_braces(text: &[u8]) -> bool
    ensures { result ≡ spec.at_braces text.now }
{
    at_two(text, b'{', b'{')
}

pub fn at_closing_braces(text: &[u8]) -> bool
    ensures { result ≡ spec.at_closing_braces text.now }
{
    at_two(text, b'}', b'}')
}

pub fn opens_format_interpolation(text: &[u8]) -> bool
    ensures { result ≡ spec.opens_format_interpolation text.now }
{
    at_braces(text) && !(byte_at(text, 2) == b'{' && byte_at(text, 3) == b'{')
}

pub fn at_byte_order_mark(text: &[u8]) -> bool
    ensures { result ≡ spec.at_byte_order_mark text.now }
{
    at_two(text, 0xef, 0xbb) && byte_at(text, 2) == 0xbf
}

pub fn line_len(text: &[u8]) -> usize
    ensures { result ≡ spec.line_len text.now }
{
    for i in 0..text.len() {
        if at_line_end(&text[i..]) {
            return i;
        }
    }
    text.len()
}

fn ends_text(text: &[u8]) -> bool
    ensures { result ≡ spec.ends_text text.now }
{
    at_line_end(text) || opens_format_interpolation(text)
}

fn brace_takes(text: &[u8]) -> usize
    ensures { result ≡ spec.brace_takes text.now }
{
    if at_braces(text) { 3 } else { 0 }
}

/// How many bytes of body text stand at the front.
pub fn text_len(text: &[u8]) -> usize
    ensures { result ≡ spec.text_len text.now }
{
    let mut skip: usize = 0;
    for i in 0..text.len() {
        if skip > 0 {
            skip -= 1;
            continue;
        }
        let rest = &text[i..];
        if ends_text(rest) {
            return i;
        }
        skip = brace_takes(rest);
    }
    text.len()
}

pub fn is_blank_line(text: &[u8]) -> bool
    ensures { result ≡ spec.is_blank_line text.now }
{
    let rest = &text[blank_len(text)..];
    rest.is_empty() || at_line_end(rest)
}

pub fn is_mixed(text: &[u8]) -> bool
    ensures { result ≡ spec.is_mixed text.now }
{
    let white = &text[..blank_len(text)];
    white.contains(&b' ') && white.contains(&b'\t')
}

pub fn breaks_off(text: &[u8]) -> bool
    ensures { result ≡ spec.breaks_off text.now }
{
    text.is_empty() || at_line_end(text) || at_continuation(text)
}
