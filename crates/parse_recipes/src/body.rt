//! Bodies of recipes, and blank lines.
ghost use Rattle.std.specs.Prelude.{◌≡◌, IfOk, IfSome, false, length, map, option_map, take};
ghost use Rattle.just_text.specs.Tokens.{word_of};
ghost use Rattle.tree_items.specs.Lines.{piece_of, pieces_of};
ghost use Rattle.parse_recipes.specs.Bodies.{behind_blank, blank_end, without_blank_end};
ghost use Rattle.parse_expressions.specs.Origins.{origin_of};
ghost use Rattle.parse_expressions.specs.Reading.{Gives, ahead};
ghost use Rattle.parse_recipes.specs.Cooked.{AreFragmentsCooked, IsBodyCooked, IsFragmentCooked, IsLineCooked};
ghost use Rattle.parse_recipes.specs.Seen.{blank_line_at, if_taken};
ghost use Rattle.parse_recipes.specs.Reading.{body_at, line_at, lines_at, piece_at, pieces_at};

use crate::shrinking::{push_compact, shrunk};
use just_text::{Expander, TokenKind, both};
use parse_expressions::{Context, Cursor, Fault};
use std::alloc::Global;
use tree_items::{Fragment, Line};

/// The lines of a body, and how many blank lines after its last line belong to the file.
#[derive(Drop)]
pub struct BodyRead<'src> {
    pub lines: Vec<Line<'src>>,
    pub blank_lines: usize,
}

/// Takes a line on which nothing stands but a comment, if it comes here.
#[tactic(auto, unfolding(crate::specs::Seen::blank_line_at))]
fn blank_line(cursor: &mut Cursor) -> bool
    ensures taken { blank_line_at word_of (ahead cursor.old) ≡ if_taken result (ahead cursor.new) }
    ensures stays { result ≡ false → ahead cursor.new ≡ ahead cursor.old }
{
    if cursor.accept(TokenKind::Eol).is_some() {
        return true;
    }
    let mut behind = *cursor;
    if behind.accept(TokenKind::Comment).is_none() || behind.accept(TokenKind::Eol).is_none() {
        return false;
    }
    *cursor = behind;
    true
}

/// Takes all lines on which nothing stands but a comment.
fn blank_lines(cursor: &mut Cursor)
    ensures { ahead cursor.new ≡ behind_blank word_of (ahead cursor.old) }
{
    while blank_line(cursor) {}
}

/// A text or an interpolation, if one comes here.
#[tactic(auto, unfolding(crate::specs::Reading::piece_at))]
fn fragment<'src, E: Expander>(
    cursor: &mut Cursor<'_, 'src>,
    context: &Context<'_, 'src, E>,
) -> Result<Option<Fragment<'src>>, Fault<'src>>
    ensures gives { Gives (λ f. (option_map piece_of f, ahead cursor.new)) result (piece_at word_of (E.expansion context.now.expander.now) (ahead cursor.old)) }
    ensures cooked { IfOk result (λ f. IfSome f (IsFragmentCooked (origin_of E.expansion context.now))) }
{
    if let Some(token) = cursor.accept(TokenKind::Text) {
        return Ok(Some(Fragment::Text { token }));
    }
    if cursor.accept(TokenKind::InterpolationStart).is_none() {
        return Ok(None);
    }
    let expression = cursor.expression(context)?;
    let (expression, _end) = both(expression, cursor.expect(TokenKind::InterpolationEnd))?;
    Ok(Some(Fragment::Interpolation { expression }))
}

/// The texts and interpolations of a line.
fn fragments<'src, E: Expander>(
    alloc: Global,
    cursor: &mut Cursor<'_, 'src>,
    context: &Context<'_, 'src, E>,
) -> Result<Vec<Fragment<'src>>, Fault<'src>>
    ensures gives { Gives (λ fs. (map piece_of fs.items, ahead cursor.new)) result (pieces_at word_of (E.expansion context.now.expander.now) (ahead cursor.old)) }
    ensures cooked { IfOk result (λ fs. AreFragmentsCooked (origin_of E.expansion context.now) fs.items) }
{
    let mut fragments = Vec::new(alloc);
    while let Some(fragment) = fragment(cursor, context)? {
        push_compact(&mut fragments, fragment)?;
    }
    Ok(fragments)
}

/// A line and its end, which the last line may lack if it isn't blank.
#[tactic(auto, unfolding(crate::specs::Reading::line_at))]
fn line<'src, E: Expander>(
    alloc: Global,
    cursor: &mut Cursor<'_, 'src>,
    context: &Context<'_, 'src, E>,
) -> Result<Line<'src>, Fault<'src>>
    ensures gives { Gives (λ l. (pieces_of l, ahead cursor.new)) result (line_at word_of (E.expansion context.now.expander.now) (ahead cursor.old)) }
    ensures cooked { IfOk result (IsLineCooked (origin_of E.expansion context.now)) }
{
    let fragments = fragments(alloc, cursor, context)?;
    if fragments.is_empty() || !cursor.is_next(TokenKind::Dedent) {
        cursor.expect(TokenKind::Eol)?;
    }
    Ok(Line {
        fragments: shrunk(fragments),
    })
}

/// The lines of a body after its indent, and the dedent.
fn lines<'src, E: Expander>(
    alloc: Global,
    cursor: &mut Cursor<'_, 'src>,
    context: &Context<'_, 'src, E>,
) -> Result<Vec<Line<'src>>, Fault<'src>>
    ensures gives { Gives (λ ls. (map pieces_of ls.items, ahead cursor.new)) result (lines_at word_of (E.expansion context.now.expander.now) (ahead cursor.old)) }
    ensures cooked { IfOk result (λ ls. IsBodyCooked (origin_of E.expansion context.now) ls.items) }
{
    let mut lines = Vec::new(alloc);
    while cursor.accept(TokenKind::Dedent).is_none() {
        push_compact(&mut lines, line(alloc, cursor, context)?)?;
    }
    Ok(lines)
}

/// Drops the blank lines at the end.
fn drop_blank_end(lines: &mut Vec<Line>)
    ensures kept { map pieces_of lines.new.items ≡ without_blank_end (map pieces_of lines.old.items) }
    ensures front { lines.new.items ≡ take (length lines.new.items) lines.old.items }
{
    while let Some(line) = lines.last()
        && line.fragments.is_empty()
    {
        lines.pop();
    }
}

/// Drops the blank lines at the end, and counts them.
fn count_blank_end(lines: &mut Vec<Line>) -> usize
    ensures kept { map pieces_of lines.new.items ≡ without_blank_end (map pieces_of lines.old.items) }
    ensures front { lines.new.items ≡ take (length lines.new.items) lines.old.items }
    ensures count { result ≡ blank_end (map pieces_of lines.old.items) }
{
    let before = lines.len();
    drop_blank_end(lines);
    before - lines.len()
}

/// Takes the body that stands here, perhaps after blank lines. Where none stands nothing is taken,
/// and there are no lines.
///
/// Refused where an expression is, where an interpolation or a line doesn't end, and where memory
/// runs out. After a refusal it is not said where the cursor stands.
#[tactic(auto, unfolding(crate::specs::Reading::body_at))]
pub fn body<'src, E: Expander>(
    alloc: Global,
    cursor: &mut Cursor<'_, 'src>,
    context: &Context<'_, 'src, E>,
) -> Result<BodyRead<'src>, Fault<'src>>
    ensures gives { Gives (λ b. ((map pieces_of b.lines.items, b.blank_lines), ahead cursor.new)) result (body_at word_of (E.expansion context.now.expander.now) (ahead cursor.old)) }
    ensures cooked { IfOk result (λ b. IsBodyCooked (origin_of E.expansion context.now) b.lines.items) }
{
    let before = *cursor;
    blank_lines(cursor);
    if cursor.accept(TokenKind::Indent).is_none() {
        *cursor = before;
        return Ok(BodyRead {
            lines: Vec::new(alloc),
            blank_lines: 0,
        });
    }
    let mut lines = lines(alloc, cursor, context)?;
    let blank_lines = count_blank_end(&mut lines);
    Ok(BodyRead { lines, blank_lines })
}
