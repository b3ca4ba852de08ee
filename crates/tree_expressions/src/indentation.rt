//! The lines of a text without the indentation that they share.
ghost use Rattle.std.specs.Prelude.{◌≡◌, ◌<◌, ◌∷◌, ◌==◌, ◌||◌, length, IfOk};
ghost use Rattle.std.specs.List.{common_prefix_len, prefix_len};
ghost use Rattle.std.specs.Option.{option_copied};
ghost use Rattle.std.specs.Str.{IsAscii};
ghost use Rattle.tree_expressions.specs.Indentation as spec;

use crate::cut::without_front;
use just_text::Text;
use std::alloc::{AllocError, Global};

fn is_indent(byte: u8) -> bool
    ensures { result ≡ spec.is_indent byte }
{
    byte == b' ' || byte == b'\t'
}

fn is_white(byte: u8) -> bool
    ensures { result ≡ spec.is_white byte }
{
    is_indent(byte) || byte == b'\r' || byte == b'\n'
}

fn is_blank(line: &str) -> bool
    ensures { result ≡ spec.is_blank line.now }
{
    line.as_bytes().iter().all(|byte| is_white(*byte))
}

/// The first line, with its newline, and what is after it.
fn split_line(text: &str) -> (&str, &str)
    requires { 0 < length text.now }
    ensures lines { spec.lines_of text.now ≡ result.0.now ∷ spec.lines_of result.1.now }
    ensures nearer { length result.1.now < length text.now }
{
    match text.find('\n') {
        Some(end) => text.split_at(end + 1),
        None => (text, ""),
    }
}

/// How many spaces and tabs a line begins with.
fn leading_len(line: &[u8]) -> usize
    ensures { result ≡ prefix_len spec.is_indent line.now }
{
    line.iter().take_while(|byte| is_indent(**byte)).count()
}

/// The spaces and tabs that a line begins with.
fn leading(line: &str) -> &str
    ensures value { result.now ≡ spec.leading line.now }
    ensures ascii { IsAscii result.now }
{
    &line[..leading_len(line.as_bytes())]
}

/// How many bytes both begin with.
fn shared_len(left: &[u8], right: &[u8]) -> usize
    ensures { result ≡ common_prefix_len (λ a b. a == b) left.now right.now }
{
    let shorter = left.len().min(right.len());
    for i in 0..shorter {
        if left[i] != right[i] {
            return i;
        }
    }
    shorter
}

/// The longest run with which both begin, of spaces and tabs.
fn shared<'a>(run: &str, line: &'a str) -> &'a str
    ensures { result.now ≡ spec.shared run.now (spec.leading line.now) }
{
    let leading = leading(line);
    let length = shared_len(run.as_bytes(), leading.as_bytes());
    &leading[..length]
}

/// The run that all lines share up to this one.
fn narrowed<'a>(run: Option<&'a str>, line: &'a str) -> Option<&'a str>
    ensures { option_copied result ≡ spec.narrowed (option_copied run.entry) line.now }
{
    if is_blank(line) {
        return run;
    }
    match run {
        Some(run) => Some(shared(run, line)),
        None => Some(leading(line)),
    }
}

/// The longest run of spaces and tabs with which each line begins that isn't blank.
fn indentation(text: &str) -> Option<&str>
    ensures { option_copied result ≡ spec.indentation (spec.lines_of text.now) }
{
    let mut run = None;
    let mut rest = text;
    while !rest.is_empty() {
        let (line, after) = split_line(rest);
        run = narrowed(run, line);
        rest = after;
    }
    run
}

/// A line in front of this rest is the first or the last.
fn is_outer(first: bool, rest: &str) -> bool
    ensures { result ≡ (first || spec.are_none (spec.lines_of rest.now)) }
{
    first || rest.is_empty()
}

/// What stays of a line.
fn kept<'a>(run: &str, outer: bool, line: &'a str) -> &'a str
    ensures { result.now ≡ spec.kept run.now outer line.now }
{
    if !is_blank(line) {
        without_front(line, run)
    } else if outer {
        ""
    } else {
        "\n"
    }
}

/// The text without the longest run of spaces and tabs with which each of its lines begins that
/// isn't blank. Lines are cut after each newline; a line of spaces, tabs and carriage returns alone
/// is blank, and becomes a newline, or nothing if it is the first or the last.
///
/// Refused only where memory runs out.
#[tactic(auto, unfolding(crate::specs::Indentation::unindented))]
pub fn unindent(alloc: Global, text: &str) -> Result<Text, AllocError>
    ensures { IfOk result (λ unindented. unindented ≡ spec.unindented text.now) }
{
    let run = indentation(text).unwrap_or("");
    let mut kept_lines = String::new(alloc);
    let mut first = true;
    let mut rest = text;
    while !rest.is_empty() {
        let (line, after) = split_line(rest);
        kept_lines.push_str(kept(run, is_outer(first, after), line))?;
        first = false;
        rest = after;
    }
    Ok(Text::from_string(kept_lines))
}
