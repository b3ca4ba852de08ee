//! The arguments of attributes as they are printed.
ghost use Rattle.std.specs.Prelude.{◌≡◌, ◌++◌, Some};
ghost use Rattle.std.specs.Fmt.{WritesOnOk};
ghost use Rattle.tree_attributes.specs.Attributes as tree;
ghost use Rattle.tree_attributes.specs.Sets.Arguments as spec;

use crate::{Attribute, Elements, Interpreter, Strings};
use std::fmt;
use tree_expressions::{Expression, StringLiteral};

/// The arguments of an attribute without the parentheses, and nothing where it has none.
#[derive(Clone, Copy)]
pub struct PrintedArguments<'a, 'src>(pub &'a Attribute<'src>);

impl fmt::Display for PrintedArguments<'_, '_> {
    ghost output = { λ printed. Some (spec.arguments_text (tree.attribute_shape printed.0.now)) };

    fn fmt<W: fmt::Write>(&self, f: &mut fmt::Formatter<W>) -> fmt::Result {
        match self.0 {
            Attribute::Arg(options) => fmt::Display::fmt(options, f),
            Attribute::Confirm(Some(prompt)) => fmt::Display::fmt(prompt, f),
            Attribute::Env { key, value } => write!(f, "{key}, {value}"),
            Attribute::Doc(Some(text))
            | Attribute::Extension(text)
            | Attribute::Group(text)
            | Attribute::WorkingDirectory(text) => f.write_str(text.token.lexeme()),
            Attribute::Metadata { first, others } => print_strings(f, first, others),
            Attribute::Script(Some(interpreter)) => print_interpreter(f, interpreter),
            _ => Ok(()),
        }
    }
}

/// One or more strings.
fn print_strings<W: fmt::Write>(
    f: &mut fmt::Formatter<W>,
    first: &StringLiteral,
    others: &[StringLiteral],
) -> fmt::Result
    ensures { WritesOnOk W.write_str_gives f.old result (tree.written first.now ++ tree.strings_text (tree.strings_of others.now)) f.new }
{
    let first = first.token.lexeme();
    let others = Strings(others);
    write!(f, "{first}{others}")
}

/// A command and its arguments.
fn print_interpreter<W: fmt::Write>(
    f: &mut fmt::Formatter<W>,
    interpreter: &Interpreter<Expression>,
) -> fmt::Result
    ensures { WritesOnOk W.write_str_gives f.old result (tree.expressions_text (tree.interpreter_shape interpreter.now)) f.new }
{
    let command = &interpreter.command;
    let arguments = Elements(interpreter.arguments.as_slice());
    write!(f, "{command}{arguments}")
}
