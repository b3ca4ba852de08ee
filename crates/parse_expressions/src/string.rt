//! Strings that stand alone.
ghost use Rattle.std.specs.Prelude.{IfOk};
ghost use Rattle.just_text.specs.Tokens.{word_of};
ghost use Rattle.tree_expressions.specs.Shape.{written};
ghost use Rattle.parse_expressions.specs.Reading.{Gives, ahead};
ghost use Rattle.parse_expressions.specs.Strings.{IsCookedString, string_at};

use crate::context::Context;
use crate::cursor::Cursor;
use crate::fault::Fault;
use crate::literal::string_literal;
use just_text::{Expander, TokenKind};
use tree_expressions::StringLiteral;

impl<'t, 'src> Cursor<'t, 'src> {
    /// Takes the string that stands here, with its cooked text. A format string is none.
    ///
    /// `Unexpected` where no string comes; `Refused` at one that stands for no text; `OutOfMemory`.
    /// After a refusal it is not said where the cursor stands.
    #[tactic(auto, unfolding(crate::specs::Strings::string_at))]
    pub fn string<E: Expander>(
        &mut self,
        context: &Context<'_, 'src, E>,
    ) -> Result<StringLiteral<'src>, Fault<'src>>
        ensures gives { Gives (λ s. (written s, ahead self.new)) result (string_at word_of (E.expansion context.now.expander.now) (ahead self.old)) }
        ensures cooked { IfOk result (IsCookedString (E.expansion context.now.expander.now)) }
    {
        let token = self.expect(TokenKind::StringToken)?;
        string_literal(self.alloc, token, context)
    }
}
