//! Settings.
ghost use Rattle.std.specs.Prelude.{Some};
ghost use Rattle.tree_attributes.specs.Settings as spec;

use crate::rows::Elements;
use crate::truth_setting::TruthSetting;
use std::fmt;
use tree_expressions::{Expression, StringLiteral};

/// A command and its arguments; `T` is what stands for a text.
pub struct Interpreter<T> {
    pub arguments: Vec<T>,
    pub command: T,
}

impl<T: Drop> Drop for Interpreter<T> {
    fn drop(self) {
        let Interpreter {
            arguments: _arguments,
            command: _command,
        } = self;
    }
}

impl<'src> fmt::Display for Interpreter<Expression<'src>> {
    ghost output = { λ interpreter. Some (spec.interpreter_text (spec.interpreter_shape interpreter)) };

    fn fmt<W: fmt::Write>(&self, f: &mut fmt::Formatter<W>) -> fmt::Result {
        let command = &self.command;
        let arguments = Elements(self.arguments.as_slice());
        write!(f, "[{command}{arguments}]")
    }
}

/// A setting and its value: a truth value, an expression, a list of one or more expressions, or a
/// string.
pub enum Setting<'src> {
    DotenvCommand(Expression<'src>),
    DotenvFilename(Expression<'src>),
    DotenvPath(Expression<'src>),
    /// One tab, or one to eight spaces.
    Indentation(StringLiteral<'src>),
    /// A version.
    MinimumVersion(StringLiteral<'src>),
    ScriptInterpreter(Interpreter<Expression<'src>>),
    Shell(Interpreter<Expression<'src>>),
    Tempdir(Expression<'src>),
    Truth(TruthSetting, bool),
    WindowsShell(Interpreter<Expression<'src>>),
    WorkingDirectory(Expression<'src>),
}

impl Drop for Setting<'_> {
    fn drop(self) {
        match self {
            Setting::Truth(_which, _value) => {}
            Setting::DotenvCommand(_value)
            | Setting::DotenvFilename(_value)
            | Setting::DotenvPath(_value)
            | Setting::Tempdir(_value)
            | Setting::WorkingDirectory(_value) => {}
            Setting::Indentation(_value) | Setting::MinimumVersion(_value) => {}
            Setting::ScriptInterpreter(_value)
            | Setting::Shell(_value)
            | Setting::WindowsShell(_value) => {}
        }
    }
}

/// Prints the value.
impl fmt::Display for Setting<'_> {
    ghost output = { λ setting. Some (spec.value_text (spec.value_shape setting)) };

    fn fmt<W: fmt::Write>(&self, f: &mut fmt::Formatter<W>) -> fmt::Result {
        match self {
            Setting::Truth(_which, value) => fmt::Display::fmt(value, f),
            Setting::DotenvCommand(value)
            | Setting::DotenvFilename(value)
            | Setting::DotenvPath(value)
            | Setting::Tempdir(value)
            | Setting::WorkingDirectory(value) => fmt::Display::fmt(value, f),
            Setting::Indentation(value) | Setting::MinimumVersion(value) => f.write_str(
                value.token.lexeme(),
            ),
            Setting::ScriptInterpreter(value)
            | Setting::Shell(value)
            | Setting::WindowsShell(value) => fmt::Display::fmt(value, f),
        }
    }
}
