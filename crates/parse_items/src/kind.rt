//! What an item is, by its first words.
ghost use Rattle.std.specs.Prelude.{◌≡◌};
ghost use Rattle.just_text.specs.Tokens.{lexeme, word_of};
ghost use Rattle.parse_expressions.specs.Reading.{ahead};
ghost use Rattle.parse_items.specs.Reading.{ends_here, is_named_value, kind_at, kind_by_one, kind_by_two, kind_of_names, kind_of_value};

use just_text::TokenKind;
use parse_expressions::Cursor;
use tree_attributes::ItemKind;

/// Whether a line ends here.
#[tactic(auto, unfolding(parse_expressions::specs::LineEnds::eol_at, parse_expressions::specs::Reading::is_next))]
fn ends_here(mut cursor: Cursor) -> bool
    ensures { result ≡ ends_here word_of (ahead cursor.entry) }
{
    let _comment = cursor.accept(TokenKind::Comment);
    cursor.is_next(TokenKind::Eol) || cursor.is_next(TokenKind::Eof)
}

/// Whether a name and `:=` come here.
#[tactic(auto, unfolding(crate::specs::Reading::is_named_value))]
pub(crate) fn is_named_value(mut cursor: Cursor) -> bool
    ensures { result ≡ is_named_value word_of (ahead cursor.entry) }
{
    cursor.accept(TokenKind::Identifier).is_some() && cursor.is_next(TokenKind::ColonEquals)
}

/// What an item is after whose first name there is `:=` after a second.
fn kind_of_value(first: &str) -> ItemKind
    ensures { result ≡ kind_of_value first.now }
{
    match first {
        "export" | "eager" => ItemKind::Assignment,
        "alias" => ItemKind::Alias,
        "set" => ItemKind::Set,
        _ => ItemKind::Recipe,
    }
}

/// What an item is whose line has two names alone.
fn kind_of_names(first: &str) -> ItemKind
    ensures { result ≡ kind_of_names first.now }
{
    match first {
        "set" => ItemKind::Set,
        "unexport" => ItemKind::Unexport,
        "mod" => ItemKind::Module,
        _ => ItemKind::Recipe,
    }
}

/// What an item is whose first words are these names.
#[tactic(auto, unfolding(crate::specs::Reading::kind_by_two))]
fn kind_by_two(mut cursor: Cursor, first: &str, second: &str) -> ItemKind
    ensures { result ≡ kind_by_two word_of first.now second.now (ahead cursor.entry) }
{
    if cursor.is_next(TokenKind::ColonEquals) {
        return kind_of_value(first);
    }
    if ends_here(cursor) {
        return kind_of_names(first);
    }
    if cursor.is_next(TokenKind::StringToken) && first == "mod" {
        return ItemKind::Module;
    }
    let are_words = first == "export" && second == "eager"
        || first == "eager" && second == "export";
    if are_words && is_named_value(cursor) {
        return ItemKind::Assignment;
    }
    ItemKind::Recipe
}

/// What an item is whose first word is this name.
#[tactic(auto, unfolding(crate::specs::Reading::kind_by_one))]
fn kind_by_one(mut cursor: Cursor, first: &str) -> ItemKind
    ensures { result ≡ kind_by_one word_of first.now (ahead cursor.entry) }
{
    if cursor.is_next(TokenKind::ColonEquals) {
        return ItemKind::Assignment;
    }
    if cursor.is_next(TokenKind::ParenL) {
        return ItemKind::Function;
    }
    let asks = cursor.is_next(TokenKind::QuestionMark);
    if first == "import" && (asks || cursor.is_next(TokenKind::StringToken)) {
        return ItemKind::Import;
    }
    if first == "mod" && asks {
        return ItemKind::Module;
    }
    match cursor.accept(TokenKind::Identifier) {
        None => ItemKind::Recipe,
        Some(second) => kind_by_two(cursor, first, second.lexeme()),
    }
}

/// What the item is that begins here, which is told by its first words: a recipe where they are
/// those of no other item.
#[tactic(auto, unfolding(crate::specs::Reading::kind_at))]
pub fn kind(mut cursor: Cursor) -> ItemKind
    ensures { result ≡ kind_at word_of (ahead cursor.entry) }
{
    match cursor.accept(TokenKind::Identifier) {
        None => ItemKind::Recipe,
        Some(first) => kind_by_one(cursor, first.lexeme()),
    }
}
