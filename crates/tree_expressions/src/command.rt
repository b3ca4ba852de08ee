//! Commands.
ghost use Rattle.std.specs.Prelude.{◌≡◌, IfOk, codes};
ghost use Rattle.tree_expressions.specs.Cutting.{begins};
ghost use Rattle.tree_expressions.specs.Cooking as spec;

use crate::cut;
use crate::string_literal::laid_out;
use just_text::Text;
use std::alloc::{AllocError, Global};

/// Takes the text of a command's token, and gives what stands between its backticks, unindented if
/// they are three. Commands have no escapes.
///
/// Refused only where memory runs out.
#[tactic(auto, unfolding(crate::specs::Cooking::command))]
pub fn command_text(alloc: Global, lexeme: &str) -> Result<Text, AllocError>
    ensures { IfOk result (λ command. command ≡ spec.command lexeme.now) }
{
    let tripled = cut::begins(lexeme, "```");
    let mark = if tripled { "```" } else { "`" };
    let contents = cut::without_back(cut::without_front(lexeme, mark), mark);
    laid_out(alloc, tripled, contents)
}

/// The text begins with `#!`, which no command may.
pub fn is_shebang(text: &str) -> bool
    ensures { result ≡ begins text.now (codes "#!") }
{
    cut::begins(text, "#!")
}
