//! A parser of expressions by recursive descent, no deeper than their levels.
ghost use Rattle.std.specs.Prelude.{◌≡◌, ◌≢◌, Err, IfOk, IfSome, IsSome, List, length, suc};
ghost use Rattle.just_text.specs.Tokens.{word_of, lexeme};
ghost use Rattle.just_text.specs.declared.token.Token.{Token};
ghost use Rattle.tree_expressions.specs.Shape.{Shape, inner_shape, shape_of, shapes_of, interpolations_of};
ghost use Rattle.parse_expressions.specs.Literals.{AreCooked, AreInterpolationsCooked, IsCooked, Origin};
ghost use Rattle.parse_expressions.specs.Origins.{origin_of};
ghost use Rattle.parse_expressions.specs.Reading.{Gives, ahead, first, too_deep, elements_at, interpolations_at, format_at, format_next, braces_at, otherwise_at, choice_at, closing_at, message_at, assertion_at, call_at, named_next, arguments_at, listing_at, bracketed_at, primary_at, prefix_at, behind_at, operand_at, expression_at};
ghost use Rattle.parse_expressions.specs.Words.{assert_keyword};

use crate::context::Context;
use crate::cursor::Cursor;
use crate::fault::Fault;
use crate::literal::{format_part, is_open};
use crate::node::{assertion, binary, call, conditional, prefixed};
use just_text::{CompileErrorKind, Expander, Name, Token, TokenKind, both, nesting_limit};
use std::alloc::Global;
use tree_expressions::{Expression, StringKind, StringLiteral};

/// The rank of a whole expression.
const WHOLE: u8 = 6;
/// The rank of what stands alone or in brackets.
const PRIMARY: u8 = 0;

impl<'t, 'src> Cursor<'t, 'src> {
    /// Takes the expression that stands here, as long as it can be; what lies ahead then is what
    /// stands after it. The names of the calls in it borrow the context's path.
    ///
    /// `Unexpected` at the first token that no rule takes, or where the tokens end too early;
    /// `Refused` at a string or a part of a format string that stands for no text, at a command
    /// that begins with `#!`, and where expressions nest more than 256 levels deep; `OutOfMemory`.
    /// After a refusal some of the tokens are taken.
    pub fn expression<E: Expander>(
        &mut self,
        context: &Context<'_, 'src, E>,
    ) -> Result<Expression<'src>, Fault<'src>>
        ensures gives { Gives (λ e. (shape_of e, ahead self.new)) result (expression_at word_of (E.expansion context.now.expander.now) 256 6 (ahead self.old)) }
        ensures cooked { IfOk result (IsCooked (origin_of E.expansion context.now)) }
    {
        self.ranked(context, WHOLE, nesting_limit())
    }

    /// Takes the expression that stands here, without operators outside of brackets: of `a + b`
    /// only `a`.
    ///
    /// Refused as `expression` refuses.
    pub fn primary_expression<E: Expander>(
        &mut self,
        context: &Context<'_, 'src, E>,
    ) -> Result<Expression<'src>, Fault<'src>>
        ensures gives { Gives (λ e. (shape_of e, ahead self.new)) result (expression_at word_of (E.expansion context.now.expander.now) 256 0 (ahead self.old)) }
        ensures cooked { IfOk result (IsCooked (origin_of E.expansion context.now)) }
    {
        self.ranked(context, PRIMARY, nesting_limit())
    }

    /// Takes expressions up to the closing mark, and the mark: a comma stands after each but the
    /// last, which may have one too.
    ///
    /// Refused as `expression` refuses, and `Unexpected` where neither a comma nor the mark comes.
    pub fn expressions<E: Expander>(
        &mut self,
        context: &Context<'_, 'src, E>,
        close: TokenKind,
    ) -> Result<Vec<Expression<'src>>, Fault<'src>>
        ensures gives { Gives (λ es. (shapes_of es.items, ahead self.new)) result (elements_at word_of (E.expansion context.now.expander.now) (expression_at word_of (E.expansion context.now.expander.now) 256) (suc (length (ahead self.old))) close (ahead self.old)) }
        ensures cooked { IfOk result (λ es. AreCooked (origin_of E.expansion context.now) es.items) }
    {
        self.elements(context, close, nesting_limit())
    }

    // The refusal of an expression for which no level is left.
    #[inline(never)]
    fn too_deep(&mut self) -> Result<Expression<'src>, Fault<'src>>
        ensures gives { Gives {Y = Shape × List Token} (λ e. (shape_of e, ahead self.new)) result (Err (too_deep (first (ahead self.old)))) }
        ensures cooked { (origin : Origin) → IfOk result (IsCooked origin) }
    {
        match self.peek() {
            Some(token) => {
                let kind = CompileErrorKind::ParsingRecursionDepthExceeded;
                Err(Fault::Refused(token, kind))
            }
            None => Err(Fault::Unexpected(None)),
        }
    }

    // An expression where that rank is allowed, with so many levels left.
    #[cycle(expression)]
    #[inline(never)]
    #[tactic(auto, unfolding(crate::specs::Reading::expression_at))]
    fn ranked<E: Expander>(
        &mut self,
        context: &Context<'_, 'src, E>,
        rank: u8,
        levels: u16,
    ) -> Result<Expression<'src>, Fault<'src>>
        ensures gives { Gives (λ e. (shape_of e, ahead self.new)) result (expression_at word_of (E.expansion context.now.expander.now) levels rank (ahead self.old)) }
        ensures cooked { IfOk result (IsCooked (origin_of E.expansion context.now)) }
    {
        if levels == 0 {
            return self.too_deep();
        }
        // (most are a string or a name, for which no rank need be tried)
        if self.is_alone() {
            return self.primary(context, levels - 1);
        }
        self.operand(context, rank, levels - 1)
    }

    // The same in a box, as expressions stand inside of others.
    #[cycle(expression)]
    #[inline(never)]
    fn boxed<E: Expander>(
        &mut self,
        context: &Context<'_, 'src, E>,
        rank: u8,
        levels: u16,
    ) -> Result<Box<Expression<'src>>, Fault<'src>>
        ensures gives { Gives (λ e. (shape_of e.value, ahead self.new)) result (expression_at word_of (E.expansion context.now.expander.now) levels rank (ahead self.old)) }
        ensures cooked { IfOk result (λ e. IsCooked (origin_of E.expansion context.now) e.value) }
    {
        let expression = self.ranked(context, rank, levels)?;
        Ok(Box::new(self.alloc, expression)?)
    }

    // An operand of that rank, where what it holds has so many levels left: ranks are tried from that of what stands first
    // up, in one frame of the stack.
    #[cycle(expression)]
    #[inline(never)]
    fn operand<E: Expander>(
        &mut self,
        context: &Context<'_, 'src, E>,
        rank: u8,
        levels: u16,
    ) -> Result<Expression<'src>, Fault<'src>>
        ensures gives { Gives (λ e. (shape_of e, ahead self.new)) result (operand_at word_of (E.expansion context.now.expander.now) (expression_at word_of (E.expansion context.now.expander.now) levels) rank (ahead self.old)) }
        ensures cooked { IfOk result (IsCooked (origin_of E.expansion context.now)) }
    {
        let first = self.prefix_rank(rank);
        let mut lhs = self.unary(context, first, levels)?;
        for below in first..rank {
            lhs = self.behind(context, lhs, below + 1, levels)?;
        }
        Ok(lhs)
    }

    // What stands first in an operand: an operator of that rank without a left side and its operand; of rank 0 what stands
    // alone or in brackets.
    #[cycle(expression)]
    #[tactic(auto, unfolding(crate::specs::Reading::operand_at))]
    fn unary<E: Expander>(
        &mut self,
        context: &Context<'_, 'src, E>,
        rank: u8,
        levels: u16,
    ) -> Result<Expression<'src>, Fault<'src>>
        requires { rank ≢ 0 → IsSome (prefix_at word_of rank (ahead self.now)) }
        ensures gives { Gives (λ e. (shape_of e, ahead self.new)) result (operand_at word_of (E.expansion context.now.expander.now) (expression_at word_of (E.expansion context.now.expander.now) levels) rank (ahead self.old)) }
        ensures cooked { IfOk result (IsCooked (origin_of E.expansion context.now)) }
    {
        if rank == 0 {
            return self.primary(context, levels);
        }
        self.prefixed(context, rank, levels)
    }

    // An operator of that rank without a left side, and its operand.
    #[cycle(expression)]
    #[inline(never)]
    fn prefixed<E: Expander>(
        &mut self,
        context: &Context<'_, 'src, E>,
        rank: u8,
        levels: u16,
    ) -> Result<Expression<'src>, Fault<'src>>
        requires binds { rank ≢ 0 }
        requires begins { IsSome (prefix_at word_of rank (ahead self.now)) }
        ensures gives { Gives (λ e. (shape_of e, ahead self.new)) result (operand_at word_of (E.expansion context.now.expander.now) (expression_at word_of (E.expansion context.now.expander.now) levels) rank (ahead self.old)) }
        ensures cooked { IfOk result (IsCooked (origin_of E.expansion context.now)) }
    {
        let Some((token, prefix)) = self.prefix(rank) else {
            unreachable!();
        };
        let operand = self.boxed(context, rank, levels)?;
        Ok(prefixed(token, prefix, operand))
    }

    // The left side alone, or with the operator of that rank that stands here and its right side.
    #[cycle(expression)]
    #[inline(never)]
    fn behind<E: Expander>(
        &mut self,
        context: &Context<'_, 'src, E>,
        lhs: Expression<'src>,
        rank: u8,
        levels: u16,
    ) -> Result<Expression<'src>, Fault<'src>>
        ensures gives { Gives (λ e. (shape_of e, ahead self.new)) result (behind_at word_of (expression_at word_of (E.expansion context.now.expander.now) levels) rank (shape_of lhs.entry, ahead self.old)) }
        ensures cooked { IsCooked (origin_of E.expansion context.now) lhs.entry → IfOk result (IsCooked (origin_of E.expansion context.now)) }
    {
        let Some((token, operator)) = self.operator(rank) else {
            return Ok(lhs);
        };
        let lhs = Box::new(self.alloc, lhs)?;
        let rhs = self.boxed(context, operator.right_rank(), levels)?;
        Ok(binary(lhs, token, operator, rhs))
    }

    #[cycle(expression)]
    #[tactic(auto, unfolding(crate::specs::Reading::primary_at, crate::specs::Reading::literal_at))]
    fn primary<E: Expander>(
        &mut self,
        context: &Context<'_, 'src, E>,
        levels: u16,
    ) -> Result<Expression<'src>, Fault<'src>>
        ensures gives { Gives (λ e. (shape_of e, ahead self.new)) result (primary_at word_of (E.expansion context.now.expander.now) (expression_at word_of (E.expansion context.now.expander.now) levels) (ahead self.old)) }
        ensures cooked { IfOk result (IsCooked (origin_of E.expansion context.now)) }
    {
        if self.is_next(TokenKind::StringToken) {
            return self.literal(context);
        }
        if self.is_next(TokenKind::Backtick) {
            return self.backtick();
        }
        if self.is_next(TokenKind::FormatStringStart) {
            return self.format(context, levels);
        }
        if self.is_next(TokenKind::Identifier) {
            return self.named(context, levels);
        }
        self.bracketed(context, levels)
    }

    // An expression in parentheses, or a list.
    #[cycle(expression)]
    #[tactic(auto, unfolding(crate::specs::Reading::bracketed_at))]
    #[inline(never)]
    fn bracketed<E: Expander>(
        &mut self,
        context: &Context<'_, 'src, E>,
        levels: u16,
    ) -> Result<Expression<'src>, Fault<'src>>
        ensures gives { Gives (λ e. (shape_of e, ahead self.new)) result (bracketed_at word_of (E.expansion context.now.expander.now) (expression_at word_of (E.expansion context.now.expander.now) levels) (ahead self.old)) }
        ensures cooked { IfOk result (IsCooked (origin_of E.expansion context.now)) }
    {
        if self.accept(TokenKind::ParenL).is_some() {
            let contents = self.boxed(context, WHOLE, levels)?;
            self.expect(TokenKind::ParenR)?;
            return Ok(Expression::Group { contents });
        }
        self.list(context, levels)
    }

    #[cycle(expression)]
    #[inline(never)]
    fn list<E: Expander>(
        &mut self,
        context: &Context<'_, 'src, E>,
        levels: u16,
    ) -> Result<Expression<'src>, Fault<'src>>
        ensures gives { Gives (λ e. (shape_of e, ahead self.new)) result (listing_at word_of (E.expansion context.now.expander.now) (expression_at word_of (E.expansion context.now.expander.now) levels) (ahead self.old)) }
        ensures cooked { IfOk result (IsCooked (origin_of E.expansion context.now)) }
    {
        let token = self.expect(TokenKind::BracketL)?;
        let elements = self.elements(context, TokenKind::BracketR, levels)?;
        Ok(Expression::List { elements, token })
    }

    // A name, and what it begins.
    #[cycle(expression)]
    #[tactic(auto, unfolding(crate::specs::Reading::named_at))]
    #[inline(never)]
    fn named<E: Expander>(
        &mut self,
        context: &Context<'_, 'src, E>,
        levels: u16,
    ) -> Result<Expression<'src>, Fault<'src>>
        ensures gives { Gives (λ e. (shape_of e, ahead self.new)) result (named_next word_of (E.expansion context.now.expander.now) (expression_at word_of (E.expansion context.now.expander.now) levels) (ahead self.old)) }
        ensures cooked { IfOk result (IsCooked (origin_of E.expansion context.now)) }
    {
        let token = self.expect(TokenKind::Identifier)?;
        let name = Name::from_token(token);
        if token.lexeme() == "if" {
            return self.conditional(context, levels);
        }
        if self.accept(TokenKind::ParenL).is_none() {
            return Ok(Expression::Variable { name, number: None });
        }
        self.call(context, name, levels)
    }

    // What stands after this name and a parenthesis.
    #[cycle(expression)]
    #[tactic(auto, unfolding(crate::specs::Reading::call_at))]
    #[inline(never)]
    fn call<E: Expander>(
        &mut self,
        context: &Context<'_, 'src, E>,
        name: Name<'src>,
        levels: u16,
    ) -> Result<Expression<'src>, Fault<'src>>
        ensures gives { Gives (λ e. (shape_of e, ahead self.new)) result (call_at word_of (E.expansion context.now.expander.now) (expression_at word_of (E.expansion context.now.expander.now) levels) (lexeme name.entry.token) (ahead self.old)) }
        ensures cooked { IfOk result (IsCooked (origin_of E.expansion context.now)) }
    {
        if name.lexeme() == "assert" {
            return self.assertion(context, name, levels);
        }
        self.arguments(context, name, levels)
    }

    // The arguments of a call after its parenthesis.
    #[cycle(expression)]
    #[inline(never)]
    fn arguments<E: Expander>(
        &mut self,
        context: &Context<'_, 'src, E>,
        name: Name<'src>,
        levels: u16,
    ) -> Result<Expression<'src>, Fault<'src>>
        ensures gives { Gives (λ e. (shape_of e, ahead self.new)) result (arguments_at word_of (E.expansion context.now.expander.now) (expression_at word_of (E.expansion context.now.expander.now) levels) (lexeme name.entry.token) (ahead self.old)) }
        ensures cooked { IfOk result (IsCooked (origin_of E.expansion context.now)) }
    {
        let arguments = self.elements(context, TokenKind::ParenR, levels)?;
        Ok(call(name, context.path, arguments))
    }

    // What stands after `assert` and its parenthesis.
    #[cycle(expression)]
    #[tactic(auto, unfolding(crate::specs::Reading::assertion_at))]
    #[inline(never)]
    fn assertion<E: Expander>(
        &mut self,
        context: &Context<'_, 'src, E>,
        name: Name<'src>,
        levels: u16,
    ) -> Result<Expression<'src>, Fault<'src>>
        requires { lexeme name.token ≡ assert_keyword }
        ensures gives { Gives (λ e. (shape_of e, ahead self.new)) result (assertion_at word_of (E.expansion context.now.expander.now) (expression_at word_of (E.expansion context.now.expander.now) levels) (ahead self.old)) }
        ensures cooked { IfOk result (IsCooked (origin_of E.expansion context.now)) }
    {
        let condition = self.boxed(context, WHOLE, levels)?;
        if self.accept(TokenKind::Comma).is_none() {
            self.expect(TokenKind::ParenR)?;
            return Ok(assertion(name, condition, None));
        }
        let message = self.message(context, levels)?;
        Ok(assertion(name, condition, message))
    }

    // The message of an assertion after its comma, if there is one, and the end of the call.
    #[cycle(expression)]
    #[tactic(auto, unfolding(crate::specs::Reading::message_at))]
    fn message<E: Expander>(
        &mut self,
        context: &Context<'_, 'src, E>,
        levels: u16,
    ) -> Result<Option<Box<Expression<'src>>>, Fault<'src>>
        ensures gives { Gives (λ m. (inner_shape m, ahead self.new)) result (message_at word_of (E.expansion context.now.expander.now) (expression_at word_of (E.expansion context.now.expander.now) levels) (ahead self.old)) }
        ensures cooked { IfOk result (λ m. IfSome m (λ e. IsCooked (origin_of E.expansion context.now) e.value)) }
    {
        if self.accept(TokenKind::ParenR).is_some() {
            return Ok(None);
        }
        let message = self.boxed(context, WHOLE, levels)?;
        self.close_call()?;
        Ok(Some(message))
    }

    // The end of a call, perhaps after a comma.
    #[tactic(auto, unfolding(crate::specs::Reading::closing_at))]
    #[inline(never)]
    fn close_call(&mut self) -> Result<(), Fault<'src>>
        ensures gives { Gives (λ _. ahead self.new) result (closing_at word_of (ahead self.old)) }
    {
        let _comma = self.accept(TokenKind::Comma);
        self.expect(TokenKind::ParenR)?;
        Ok(())
    }

    // What stands after `if`.
    #[cycle(expression)]
    #[tactic(auto, unfolding(crate::specs::Reading::choice_at))]
    #[inline(never)]
    fn conditional<E: Expander>(
        &mut self,
        context: &Context<'_, 'src, E>,
        levels: u16,
    ) -> Result<Expression<'src>, Fault<'src>>
        ensures gives { Gives (λ e. (shape_of e, ahead self.new)) result (choice_at word_of (E.expansion context.now.expander.now) (expression_at word_of (E.expansion context.now.expander.now) levels) (ahead self.old)) }
        ensures cooked { IfOk result (IsCooked (origin_of E.expansion context.now)) }
    {
        let condition = self.boxed(context, WHOLE, levels)?;
        let then = self.braces(context, levels)?;
        if !self.is_keyword("else") {
            return Ok(conditional(condition, then, None));
        }
        self.expect(TokenKind::Identifier)?;
        let otherwise = self.otherwise(context, levels)?;
        Ok(conditional(condition, then, Some(otherwise)))
    }

    #[cycle(expression)]
    #[tactic(auto, unfolding(crate::specs::Reading::otherwise_at))]
    fn otherwise<E: Expander>(
        &mut self,
        context: &Context<'_, 'src, E>,
        levels: u16,
    ) -> Result<Box<Expression<'src>>, Fault<'src>>
        ensures gives { Gives (λ e. (shape_of e.value, ahead self.new)) result (otherwise_at word_of (E.expansion context.now.expander.now) (expression_at word_of (E.expansion context.now.expander.now) levels) (ahead self.old)) }
        ensures cooked { IfOk result (λ e. IsCooked (origin_of E.expansion context.now) e.value) }
    {
        if self.is_keyword("if") {
            return self.boxed(context, PRIMARY, levels);
        }
        self.braces(context, levels)
    }

    #[cycle(expression)]
    #[tactic(auto, unfolding(crate::specs::Reading::braces_at))]
    #[inline(never)]
    fn braces<E: Expander>(
        &mut self,
        context: &Context<'_, 'src, E>,
        levels: u16,
    ) -> Result<Box<Expression<'src>>, Fault<'src>>
        ensures gives { Gives (λ e. (shape_of e.value, ahead self.new)) result (braces_at word_of (E.expansion context.now.expander.now) (expression_at word_of (E.expansion context.now.expander.now) levels) (ahead self.old)) }
        ensures cooked { IfOk result (λ e. IsCooked (origin_of E.expansion context.now) e.value) }
    {
        self.expect(TokenKind::BraceL)?;
        let contents = self.boxed(context, WHOLE, levels)?;
        self.expect(TokenKind::BraceR)?;
        Ok(contents)
    }

    // Elements up to the closing mark, a comma after each, which the last may lack.
    #[cycle(expression)]
    #[inline(never)]
    fn elements<E: Expander>(
        &mut self,
        context: &Context<'_, 'src, E>,
        close: TokenKind,
        levels: u16,
    ) -> Result<Vec<Expression<'src>>, Fault<'src>>
        ensures gives { Gives (λ es. (shapes_of es.items, ahead self.new)) result (elements_at word_of (E.expansion context.now.expander.now) (expression_at word_of (E.expansion context.now.expander.now) levels) (suc (length (ahead self.old))) close (ahead self.old)) }
        ensures cooked { IfOk result (λ es. AreCooked (origin_of E.expansion context.now) es.items) }
    {
        let mut elements = Vec::new(self.alloc);
        while self.accept(close).is_none() {
            elements.push(self.ranked(context, WHOLE, levels)?)?;
            if self.accept(TokenKind::Comma).is_none() {
                self.expect(close)?;
                return Ok(elements);
            }
        }
        Ok(elements)
    }

    // A format string, from its first part on.
    #[cycle(expression)]
    #[inline(never)]
    fn format<E: Expander>(
        &mut self,
        context: &Context<'_, 'src, E>,
        levels: u16,
    ) -> Result<Expression<'src>, Fault<'src>>
        ensures gives { Gives (λ e. (shape_of e, ahead self.new)) result (format_next word_of (E.expansion context.now.expander.now) (expression_at word_of (E.expansion context.now.expander.now) levels) (ahead self.old)) }
        ensures cooked { IfOk result (IsCooked (origin_of E.expansion context.now)) }
    {
        let token = self.expect(TokenKind::FormatStringStart)?;
        self.format_string(context, token, levels)
    }

    // A format string after the token of its first part.
    #[cycle(expression)]
    #[tactic(auto, unfolding(crate::specs::Reading::format_at))]
    #[inline(never)]
    fn format_string<E: Expander>(
        &mut self,
        context: &Context<'_, 'src, E>,
        token: Token<'src>,
        levels: u16,
    ) -> Result<Expression<'src>, Fault<'src>>
        ensures gives { Gives (λ e. (shape_of e, ahead self.new)) result (format_at word_of (E.expansion context.now.expander.now) (expression_at word_of (E.expansion context.now.expander.now) levels) token.entry (ahead self.old)) }
        ensures cooked { IfOk result (IsCooked (origin_of E.expansion context.now)) }
    {
        let kind = StringKind::of_lexeme(token.lexeme());
        let start = format_part(self.alloc, kind, token)?;
        if is_open(token.lexeme()) {
            let expressions = self.interpolations(context, kind, levels)?;
            return Ok(Expression::FormatString { start, expressions });
        }
        let expressions = Vec::new(self.alloc);
        Ok(Expression::FormatString { start, expressions })
    }

    // The interpolations of a format string, each with the part after it.
    #[cycle(expression)]
    #[inline(never)]
    fn interpolations<E: Expander>(
        &mut self,
        context: &Context<'_, 'src, E>,
        kind: StringKind,
        levels: u16,
    ) -> Result<Vec<(Expression<'src>, StringLiteral<'src>)>, Fault<'src>>
        ensures gives { Gives (λ es. (interpolations_of es.items, ahead self.new)) result (interpolations_at word_of (E.expansion context.now.expander.now) (expression_at word_of (E.expansion context.now.expander.now) levels) (suc (length (ahead self.old))) kind (ahead self.old)) }
        ensures cooked { IfOk result (λ es. AreInterpolationsCooked (origin_of E.expansion context.now) kind es.items) }
    {
        let mut interpolations = Vec::new(self.alloc);
        loop {
            let expression = self.ranked(context, WHOLE, levels)?;
            let (expression, (part, follows)) = both(expression, self.part(kind))?;
            interpolations.push((expression, part))?;
            if !follows {
                return Ok(interpolations);
            }
        }
    }
}
