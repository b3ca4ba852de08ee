//! Lines of bodies.
ghost use Rattle.std.specs.Prelude.{◌≡◌, ◌-◌, length, slice_get, option_copied, Some};
ghost use Rattle.tree_items.specs.Lines as spec;
ghost use Rattle.tree_items.specs.Lines.{piece_of, piece_text, pieces_of, line_text, first_piece, last_piece, sigils_of, next_sigils, no_sigils, read_sigils, is_comment, is_continuation};

use just_text::Token;
use std::fmt;
use tree_expressions::{Expression, is_shebang};

/// A part of a body line.
pub enum Fragment<'src> {
    /// `{{ expression }}`
    Interpolation { expression: Expression<'src> },
    Text { token: Token<'src> },
}

impl Drop for Fragment<'_> {
    fn drop(self) {
        match self {
            Fragment::Interpolation {
                expression: _expression,
            } => {}
            Fragment::Text { token: _token } => {}
        }
    }
}

impl fmt::Display for Fragment<'_> {
    ghost output = { λ fragment. Some (piece_text (piece_of fragment)) };

    fn fmt<W: fmt::Write>(&self, f: &mut fmt::Formatter<W>) -> fmt::Result {
        match self {
            Fragment::Interpolation { expression } => write!(f, "{{{{ {expression} }}}}"),
            Fragment::Text { token } => f.write_str(token.lexeme()),
        }
    }
}

/// A line of a body, without its indentation; a blank line has no fragments.
pub struct Line<'src> {
    pub fragments: Vec<Fragment<'src>>,
}

impl Drop for Line<'_> {
    fn drop(self) {
        let Line {
            fragments: _fragments,
        } = self;
    }
}

/// The marks at the front of a line.
#[derive(Clone, Copy, Debug, PartialEq, Eq)]
pub struct Sigils {
    /// `?`: the code 1 ends the body with success.
    pub guard: bool,
    /// `-`: a failure is ignored.
    pub infallible: bool,
    /// `@`: the command is shown or not, against the recipe's rule.
    pub quiet: bool,
}

impl Sigils {
    /// How many marks there are: they are the first bytes of the line's text.
    pub fn count(self) -> usize
        ensures { result ≡ spec.sigil_count self }
    {
        usize::from(self.guard) + usize::from(self.infallible) + usize::from(self.quiet)
    }

    /// The marks with one more, unless the byte is no mark or a mark that is there.
    fn with(self, guards: bool, byte: u8) -> Option<Sigils>
        ensures { result ≡ next_sigils guards self byte }
    {
        match byte {
            b'@' if !self.quiet => Some(Sigils {
                quiet: true,
                ..self
            }),
            b'-' if !self.infallible => Some(Sigils {
                infallible: true,
                ..self
            }),
            b'?' if guards && !self.guard => Some(Sigils {
                guard: true,
                ..self
            }),
            _ => None,
        }
    }
}

/// The marks at the front of a text.
fn read_marks(text: &str, guards: bool) -> Sigils
    ensures { result ≡ read_sigils guards no_sigils text.now }
{
    let mut sigils = Sigils {
        guard: false,
        infallible: false,
        quiet: false,
    };
    for byte in text.as_bytes() {
        match sigils.with(guards, *byte) {
            Some(more) => sigils = more,
            None => return sigils,
        }
    }
    sigils
}

/// Whether there is a byte, and this one.
fn is_byte(found: Option<&u8>, byte: u8) -> bool
    ensures { result ≡ spec.is_byte byte (option_copied found.entry) }
{
    match found {
        Some(found) => *found == byte,
        None => false,
    }
}

/// Whether there is a byte, and it is a space or a tab.
fn is_white(found: Option<&u8>) -> bool
    ensures { result ≡ spec.is_white (option_copied found.entry) }
{
    match found {
        Some(found) => *found == b' ' || *found == b'\t',
        None => false,
    }
}

impl Line<'_> {
    /// The marks at the line's front, each at most once and in any order, up to the first byte that
    /// is no mark or a second one of its kind; `?` is a mark only under `guards`. A line that begins
    /// with an interpolation has none.
    pub fn sigils(&self, guards: bool) -> Sigils
        ensures { result ≡ sigils_of guards (first_piece self.now) }
    {
        match self.fragments.first() {
            Some(Fragment::Text { token }) => read_marks(token.lexeme(), guards),
            _ => Sigils {
                guard: false,
                infallible: false,
                quiet: false,
            },
        }
    }

    /// Whether the line begins with `#`.
    pub fn is_comment(&self) -> bool
        ensures { result ≡ is_comment (first_piece self.now) }
    {
        match self.fragments.first() {
            Some(Fragment::Text { token }) => is_byte(token.lexeme().as_bytes().first(), b'#'),
            _ => false,
        }
    }

    /// Whether the line begins with a space or a tab.
    pub fn begins_with_space(&self) -> bool
        ensures { result ≡ spec.begins_with_space (first_piece self.now) }
    {
        match self.fragments.first() {
            Some(Fragment::Text { token }) => is_white(token.lexeme().as_bytes().first()),
            _ => false,
        }
    }

    /// Whether the line begins with `#!`.
    pub fn is_shebang(&self) -> bool
        ensures { result ≡ spec.is_shebang (first_piece self.now) }
    {
        match self.fragments.first() {
            Some(Fragment::Text { token }) => is_shebang(token.lexeme()),
            _ => false,
        }
    }

    /// Whether the line ends with a backslash, so that the next one goes on with it.
    pub fn is_continuation(&self) -> bool
        ensures { result ≡ is_continuation (last_piece self.now) }
    {
        match self.fragments.last() {
            Some(Fragment::Text { token }) => is_byte(token.lexeme().as_bytes().last(), b'\\'),
            _ => false,
        }
    }

    /// Whether the line ends with a carriage return.
    pub fn ends_in_return(&self) -> bool
        ensures { result ≡ spec.ends_in_return (last_piece self.now) }
    {
        match self.fragments.last() {
            Some(Fragment::Text { token }) => is_byte(token.lexeme().as_bytes().last(), b'\r'),
            _ => false,
        }
    }
}

impl fmt::Display for Line<'_> {
    ghost output = { λ line. Some (line_text (pieces_of line)) };

    #[tactic(auto, using(crate::proofs::RowText::texts_next))]
    fn fmt<W: fmt::Write>(&self, f: &mut fmt::Formatter<W>) -> fmt::Result {
        for fragment in &self.fragments {
            write!(f, "{fragment}")?;
        }
        Ok(())
    }
}
