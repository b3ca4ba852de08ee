//! Strings, parts of format strings, and commands.
ghost use Rattle.std.specs.Prelude.{◌≡◌, ◌≢◌, [], ◌∷◌, IfOk, Ok};
ghost use Rattle.just_text.specs.Tokens.{word_of, lexeme};
ghost use Rattle.just_text.specs.declared.compile_error.CompileErrorKind.TheVariants as kinds;
ghost use Rattle.tree_expressions.specs.Kinds.{kind_of};
ghost use Rattle.tree_expressions.specs.Cooking.{cooked, command as cooked_command};
ghost use Rattle.tree_expressions.specs.Parts.{cooked_part};
ghost use Rattle.parse_expressions.specs.declared.fault.Fault.TheVariants.{OutOfMemory, Refused};
ghost use Rattle.parse_expressions.specs.Literals.{Origin, held_by, is_open, of_command, IsCooked};
ghost use Rattle.parse_expressions.specs.Origins.{origin_of};
ghost use Rattle.parse_expressions.specs.Reading.{Gives, ahead, taken_if, literal_next, command_at, command_next, part_at};
ghost use Rattle.tree_expressions.specs.Shape.{command, shape_of, written};

use crate::context::Context;
use crate::cursor::Cursor;
use crate::fault::Fault;
use just_text::{CompileError, CompileErrorKind, Expander, Token, TokenKind};
use std::alloc::Global;
use tree_expressions::{
    Expression, StringKind, StringLiteral, command_text, cook_part, is_shebang,
};

/// Why a token is refused.
fn refused<'src>(token: Token<'src>, error: CompileError<'src>) -> Fault<'src>
    ensures memory { error.entry.kind ≡ kinds.OutOfMemory → result ≡ OutOfMemory }
    ensures why { error.entry.kind ≢ kinds.OutOfMemory → result ≡ Refused token.entry error.entry.kind }
{
    match error.kind {
        CompileErrorKind::OutOfMemory => Fault::OutOfMemory,
        kind => Fault::Refused(token, kind),
    }
}

/// A string.
#[inline(never)]
pub(crate) fn string_literal<'src, E: Expander>(
    alloc: Global,
    token: Token<'src>,
    context: &Context<'_, 'src, E>,
) -> Result<StringLiteral<'src>, Fault<'src>>
    ensures gives { Gives written result (taken_if word_of token.entry (cooked (E.expansion context.now.expander.now) (lexeme token.entry))) }
    ensures cooked { IfOk result (λ s. cooked (E.expansion context.now.expander.now) (lexeme token.entry) ≡ Ok s.cooked) }
    ensures kind { IfOk result (λ s. s.kind ≡ kind_of (lexeme token.entry)) }
    ensures token { IfOk result (λ s. s.token ≡ token.entry) }
{
    match StringLiteral::cook(alloc, token, context.expander) {
        Ok(literal) => Ok(literal),
        Err(error) => Err(refused(token, error)),
    }
}

/// A part of a format string of this kind.
#[inline(never)]
pub(crate) fn format_part<'src>(
    alloc: Global,
    kind: StringKind,
    token: Token<'src>,
) -> Result<StringLiteral<'src>, Fault<'src>>
    ensures gives { Gives written result (taken_if word_of token.entry (cooked_part kind (lexeme token.entry))) }
    ensures cooked { IfOk result (λ s. cooked_part kind (lexeme token.entry) ≡ Ok s.cooked) }
    ensures kind { IfOk result (λ s. s.kind ≡ kind) }
    ensures token { IfOk result (λ s. s.token ≡ token.entry) }
{
    match cook_part(alloc, kind, token) {
        Ok(cooked) => Ok(StringLiteral {
            cooked,
            kind,
            token,
        }),
        Err(error) => Err(refused(token, error)),
    }
}

/// Whether an interpolation follows this part of a format string.
pub(crate) fn is_open(part: &str) -> bool
    ensures { result ≡ is_open part.now }
{
    part.ends_with("{{")
}

impl<'t, 'src> Cursor<'t, 'src> {
    // A string as an expression.
    #[inline(never)]
    #[tactic(auto, unfolding(crate::specs::Reading::literal_at))]
    pub(crate) fn literal<E: Expander>(
        &mut self,
        context: &Context<'_, 'src, E>,
    ) -> Result<Expression<'src>, Fault<'src>>
        ensures gives { Gives (λ e. (shape_of e, ahead self.new)) result (literal_next word_of (E.expansion context.now.expander.now) (ahead self.old)) }
        ensures cooked { IfOk result (IsCooked (origin_of E.expansion context.now)) }
    {
        let token = self.expect(TokenKind::StringToken)?;
        let string_literal = string_literal(self.alloc, token, context)?;
        Ok(Expression::StringLiteral { string_literal })
    }

    // A command, with its token.
    #[inline(never)]
    pub(crate) fn backtick(&mut self) -> Result<Expression<'src>, Fault<'src>>
        ensures gives { Gives (λ e. (shape_of e, ahead self.new)) result (command_next word_of (ahead self.old)) }
        ensures cooked { (origin : Origin) → IfOk result (IsCooked origin) }
    {
        let token = self.expect(TokenKind::Backtick)?;
        self.command(token)
    }

    // A command.
    #[tactic(auto, unfolding(crate::specs::Reading::command_at))]
    #[inline(never)]
    pub(crate) fn command(&self, token: Token<'src>) -> Result<Expression<'src>, Fault<'src>>
        ensures gives { Gives (λ e. (shape_of e, ahead self.now)) result (command_at word_of token.entry (ahead self.now)) }
        ensures shape { IfOk result (λ e. shape_of e ≡ command (lexeme token.entry)) }
        ensures held { IfOk result (λ e. held_by e ≡ of_command (cooked_command (lexeme token.entry)) ∷ []) }
    {
        let contents = command_text(self.alloc, token.lexeme())?;
        if is_shebang(contents.as_str()) {
            return Err(Fault::Refused(token, CompileErrorKind::BacktickShebang));
        }
        Ok(Expression::Backtick { contents, token })
    }

    // A part of a format string of this kind, and whether an interpolation follows.
    #[tactic(auto, unfolding(crate::specs::Reading::part_at))]
    #[inline(never)]
    pub(crate) fn part(
        &mut self,
        kind: StringKind,
    ) -> Result<(StringLiteral<'src>, bool), Fault<'src>>
        ensures gives { Gives (λ p. ((written p.0, p.1), ahead self.new)) result (part_at word_of kind (ahead self.old)) }
        ensures cooked { IfOk result (λ p. cooked_part kind (written p.0) ≡ Ok p.0.cooked) }
        ensures kind { IfOk result (λ p. p.0.kind ≡ kind) }
    {
        if let Some(token) = self.accept(TokenKind::FormatStringContinue) {
            return Ok((format_part(self.alloc, kind, token)?, true));
        }
        let token = self.expect(TokenKind::FormatStringEnd)?;
        Ok((format_part(self.alloc, kind, token)?, false))
    }
}
