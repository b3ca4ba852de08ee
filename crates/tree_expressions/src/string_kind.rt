//! The forms of strings.
ghost use Rattle.std.specs.Prelude.{◌≡◌, ◌||◌, if◌then◌else◌, codes};
ghost use Rattle.tree_expressions.specs.Cutting.{begins};
ghost use Rattle.tree_expressions.specs.Kinds as spec;
ghost use Rattle.tree_expressions.specs.declared.string_kind.StringDelimiter.TheVariants.{QuoteSingle, QuoteDouble};

use crate::cut;

/// The quotes of a string.
#[derive(Clone, Copy)]
pub enum StringDelimiter {
    QuoteSingle,
    QuoteDouble,
}

/// What stands before the quotes of a string.
#[derive(Clone, Copy, PartialEq, Eq)]
pub enum StringPrefix {
    Absent,
    /// `x`: the text is expanded.
    Expand,
    /// `f`: the text has interpolations.
    Format,
}

/// The form of a string.
#[derive(Clone, Copy)]
pub struct StringKind {
    pub delimiter: StringDelimiter,
    pub prefix: StringPrefix,
    /// Three quotes open and close it.
    pub tripled: bool,
}

/// What stands before the quotes.
fn prefix_of(lexeme: &str) -> StringPrefix
    ensures { result ≡ spec.prefix_of lexeme.now }
{
    match lexeme.as_bytes() {
        [b'x', ..] => StringPrefix::Expand,
        [b'f', ..] => StringPrefix::Format,
        _ => StringPrefix::Absent,
    }
}

/// The string from its quotes on. Most strings have nothing before these, which isn't looked for.
fn quoted(prefix: StringPrefix, lexeme: &str) -> &str
    requires { prefix ≡ spec.prefix_of lexeme.now }
    ensures { result.now ≡ spec.quoted lexeme.now }
{
    match prefix {
        StringPrefix::Absent => lexeme,
        _ => cut::without_front(lexeme, prefix.text()),
    }
}

/// The quotes of a string that begins with them.
fn delimiter_of(quoted: &str) -> StringDelimiter
    ensures { result ≡ (if begins quoted.now (codes "\"") then QuoteDouble else QuoteSingle) }
{
    match quoted.as_bytes() {
        [b'"', ..] => StringDelimiter::QuoteDouble,
        _ => StringDelimiter::QuoteSingle,
    }
}

/// Whether three quotes open a string that begins with its quotes.
fn is_tripled(quoted: &str) -> bool
    ensures { result ≡ (begins quoted.now (codes "'''") || begins quoted.now (codes "\"\"\"")) }
{
    match quoted.as_bytes() {
        [b'\'', b'\'', b'\'', ..] | [b'"', b'"', b'"', ..] => true,
        _ => false,
    }
}

impl StringPrefix {
    fn text(self) -> &'static str
        ensures { result.now ≡ spec.prefix_text self }
    {
        match self {
            StringPrefix::Absent => "",
            StringPrefix::Expand => "x",
            StringPrefix::Format => "f",
        }
    }
}

impl StringKind {
    /// The form of a string, by the text of its token, or of the first token of a format string.
    #[tactic(auto, unfolding(crate::specs::Kinds::kind_of))]
    pub fn of_lexeme(lexeme: &str) -> StringKind
        ensures { result ≡ spec.kind_of lexeme.now }
    {
        let prefix = prefix_of(lexeme);
        let quoted = quoted(prefix, lexeme);
        StringKind {
            delimiter: delimiter_of(quoted),
            prefix,
            tripled: is_tripled(quoted),
        }
    }

    /// What opens the string after its prefix, and closes it.
    pub fn mark(self) -> &'static str
        ensures { result.now ≡ spec.mark self.delimiter self.tripled }
    {
        match (self.delimiter, self.tripled) {
            (StringDelimiter::QuoteSingle, false) => "'",
            (StringDelimiter::QuoteSingle, true) => "'''",
            (StringDelimiter::QuoteDouble, false) => "\"",
            (StringDelimiter::QuoteDouble, true) => "\"\"\"",
        }
    }
}

/// What stands between the marks of a string of this form.
#[tactic(auto, unfolding(crate::specs::Kinds::kind_of))]
pub(crate) fn contents(kind: StringKind, lexeme: &str) -> &str
    requires { kind ≡ spec.kind_of lexeme.now }
    ensures { result.now ≡ spec.contents lexeme.now }
{
    let mark = kind.mark();
    let quoted = quoted(kind.prefix, lexeme);
    cut::without_back(cut::without_front(quoted, mark), mark)
}
