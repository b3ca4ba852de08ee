//! What the lines and the tokens of a justfile may name.
use just_text::{Token, TokenKind};

/// What a part of a line may name.
#[derive(Clone, Copy)]
pub enum Naming<'a> {
    /// No file.
    Nothing,
    /// The file at this path.
    Import(&'a str),
    /// The files of a submodule of this name.
    Module(&'a str),
    /// The file of a submodule at this path, or its files in this folder.
    ModuleAt(&'a str),
    /// Files whose names don't stand there as they are.
    Any,
}

/// What a string says.
#[derive(Clone, Copy)]
enum Literal<'a> {
    /// This path.
    Path(&'a str),
    /// A text that doesn't stand there as it is.
    Any,
}

/// Whether the character may stand before an item in its line.
fn is_blank(c: char) -> bool {
    c.is_whitespace() || c == '\u{feff}'
}

/// Whether the character may stand in a name.
fn is_of_name(c: char) -> bool {
    c.is_ascii_alphanumeric() || c == '_' || c == '-'
}

/// Whether the character begins a string or a comment.
fn is_mark(c: char) -> bool {
    c == '\'' || c == '"' || c == '#'
}

/// What stands after the word, which is no part of a longer name.
fn behind<'a>(part: &'a str, word: &str) -> Option<&'a str> {
    let rest = part.strip_prefix(word)?;
    if rest.starts_with(|c: char| is_of_name(c)) {
        return None;
    }
    Some(rest)
}

/// The text up to its first string or comment, and the rest.
fn cut_at_mark(text: &str) -> (&str, &str) {
    match text.find(|c: char| is_mark(c)) {
        Some(mark) => text.split_at(mark),
        None => (text, ""),
    }
}

/// What a string says whose first quote stands before this text. The text of one that ends in another line, stands in three
/// quotes or has an escape may be anything.
fn quoted(quote: char, text: &str) -> Literal<'_> {
    let Some((path, more)) = text.split_once(quote) else {
        return Literal::Any;
    };
    let is_tripled = path.is_empty() && more.starts_with(quote);
    let is_escaped = quote == '"' && path.contains('\\');
    if is_tripled || is_escaped || path.contains('\n') {
        return Literal::Any;
    }
    Literal::Path(path)
}

/// What the string at the front of the text says; `None` where no string stands there.
fn string_at_front(text: &str) -> Option<Literal<'_>> {
    if let Some(rest) = text.strip_prefix('\'') {
        return Some(quoted('\'', rest));
    }
    let rest = text.strip_prefix('"')?;
    Some(quoted('"', rest))
}

/// What the string in the second text says, the first standing before it; `None` where the line has none and ends. The text of
/// a string after `x` may be anything, and so may that of one in the next line.
fn string_after<'a>(front: &str, marked: &'a str) -> Option<Literal<'a>> {
    if marked.is_empty() && front.ends_with('\\') {
        return Some(Literal::Any);
    }
    let literal = string_at_front(marked)?;
    if front.ends_with('x') {
        return Some(Literal::Any);
    }
    Some(literal)
}

/// What an item names that begins with this text, after `import`.
fn import_naming(rest: &str) -> Naming<'_> {
    let (front, marked) = cut_at_mark(rest);
    match string_after(front, marked) {
        Some(Literal::Path(path)) => Naming::Import(path),
        Some(Literal::Any) => Naming::Any,
        None => Naming::Nothing,
    }
}

/// What an item names that begins with this text, after `mod`.
fn module_naming(rest: &str) -> Naming<'_> {
    let (front, marked) = cut_at_mark(rest);
    match string_after(front, marked) {
        Some(Literal::Path(path)) => Naming::ModuleAt(path),
        Some(Literal::Any) => Naming::Any,
        None => Naming::Module(front.trim_matches(|c: char| !is_of_name(c))),
    }
}

/// What an import or a module may name that begins with this part of a line, after white space. The part is one of those
/// between the closing brackets of its line: an item begins with its line, or after an attribute.
pub fn part_naming(part: &str) -> Naming<'_> {
    let item = part.trim_start_matches(|c: char| is_blank(c));
    if let Some(rest) = behind(item, "import") {
        return import_naming(rest);
    }
    match behind(item, "mod") {
        Some(rest) => module_naming(rest),
        None => Naming::Nothing,
    }
}

/// Whether an item may begin after a token of this kind, white space left out.
pub fn may_precede_item(kind: TokenKind) -> bool {
    matches!(
        kind,
        TokenKind::ByteOrderMark | TokenKind::Eol | TokenKind::Dedent | TokenKind::BracketR
    )
}

/// Whether the token stands for itself in an import or a module: white space and question marks say nothing of the path.
fn is_word(token: &Token) -> bool {
    token.kind != TokenKind::Whitespace && token.kind != TokenKind::QuestionMark
}

/// What the token says as a string; `None` where it is no string. The text of a string after `x` may be anything.
fn token_literal<'src>(token: Option<&Token<'src>>) -> Option<Literal<'src>> {
    let token = token?;
    if token.kind != TokenKind::StringToken {
        return None;
    }
    Some(string_at_front(token.lexeme()).unwrap_or(Literal::Any))
}

/// What an import names whose word this token comes after.
fn import_after<'src>(token: Option<&Token<'src>>) -> Naming<'src> {
    match token_literal(token) {
        Some(Literal::Path(path)) => Naming::Import(path),
        Some(Literal::Any) => Naming::Any,
        None => Naming::Nothing,
    }
}

/// What a submodule names whose name and the token after it these are.
fn module_after<'src>(name: Option<&Token<'src>>, token: Option<&Token<'src>>) -> Naming<'src> {
    let Some(name) = name else {
        return Naming::Nothing;
    };
    match token_literal(token) {
        Some(Literal::Path(path)) => Naming::ModuleAt(path),
        Some(Literal::Any) => Naming::Any,
        None if name.kind == TokenKind::Identifier => Naming::Module(name.lexeme()),
        None => Naming::Nothing,
    }
}

/// What an import or a module names that begins with these tokens.
pub fn item_naming<'src>(tokens: &[Token<'src>]) -> Naming<'src> {
    let mut words = tokens.iter().filter(|token| is_word(token));
    let Some(first) = words.next() else {
        return Naming::Nothing;
    };
    if first.kind != TokenKind::Identifier {
        return Naming::Nothing;
    }
    match first.lexeme() {
        "import" => import_after(words.next()),
        "mod" => module_after(words.next(), words.next()),
        _ => Naming::Nothing,
    }
}
