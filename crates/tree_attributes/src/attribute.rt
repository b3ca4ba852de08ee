//! Attributes.
ghost use Rattle.std.specs.Prelude.{◌≡◌, ◌++◌, Some, codes};
ghost use Rattle.std.specs.Fmt.{WritesOnOk};
ghost use Rattle.tree_attributes.specs.Attributes as spec;

use crate::rows::{Elements, Strings};
use crate::setting::Interpreter;
use std::fmt;
use tree_expressions::{Expression, StringLiteral};

/// Which attribute it is.
#[derive(Clone, Copy, Debug, PartialEq, Eq, PartialOrd, Ord)]
pub enum AttributeKind {
    Android,
    Arg,
    Cache,
    Confirm,
    Default,
    Doc,
    Dragonfly,
    Env,
    ExitMessage,
    Extension,
    Freebsd,
    Group,
    Linux,
    Macos,
    Metadata,
    Netbsd,
    NoCd,
    NoExitMessage,
    NoQuiet,
    Openbsd,
    Parallel,
    PositionalArguments,
    Private,
    Script,
    Unix,
    Windows,
    WorkingDirectory,
}

impl AttributeKind {
    /// The attribute's name as it is written.
    pub fn name(self) -> &'static str
        ensures { result.now ≡ spec.kind_name self }
    {
        match self {
            AttributeKind::Android => "android",
            AttributeKind::Arg => "arg",
            AttributeKind::Cache => "cache",
            AttributeKind::Confirm => "confirm",
            AttributeKind::Default => "default",
            AttributeKind::Doc => "doc",
            AttributeKind::Dragonfly => "dragonfly",
            AttributeKind::Env => "env",
            AttributeKind::ExitMessage => "exit-message",
            AttributeKind::Extension => "extension",
            AttributeKind::Freebsd => "freebsd",
            AttributeKind::Group => "group",
            AttributeKind::Linux => "linux",
            AttributeKind::Macos => "macos",
            AttributeKind::Metadata => "metadata",
            AttributeKind::Netbsd => "netbsd",
            AttributeKind::NoCd => "no-cd",
            AttributeKind::NoExitMessage => "no-exit-message",
            AttributeKind::NoQuiet => "no-quiet",
            AttributeKind::Openbsd => "openbsd",
            AttributeKind::Parallel => "parallel",
            AttributeKind::PositionalArguments => "positional-arguments",
            AttributeKind::Private => "private",
            AttributeKind::Script => "script",
            AttributeKind::Unix => "unix",
            AttributeKind::Windows => "windows",
            AttributeKind::WorkingDirectory => "working-directory",
        }
    }

    /// Whether an item may have more than one of them.
    pub fn is_repeatable(self) -> bool
        ensures { result ≡ spec.is_repeatable self }
    {
        match self {
            AttributeKind::Arg
            | AttributeKind::Env
            | AttributeKind::Group
            | AttributeKind::Metadata => true,
            _ => false,
        }
    }
}

impl fmt::Display for AttributeKind {
    ghost output = { λ kind. Some (spec.kind_name kind) };

    fn fmt<W: fmt::Write>(&self, f: &mut fmt::Formatter<W>) -> fmt::Result {
        f.write_str(self.name())
    }
}

/// The name of a parameter's option after two dashes.
#[derive(Drop)]
pub enum LongName<'src> {
    Absent,
    Named(StringLiteral<'src>),
    /// The parameter's own name.
    OfParameter,
}

impl fmt::Display for LongName<'_> {
    ghost output = { λ long. Some (spec.long_text (spec.long_shape long)) };

    fn fmt<W: fmt::Write>(&self, f: &mut fmt::Formatter<W>) -> fmt::Result {
        match self {
            LongName::Absent => Ok(()),
            LongName::Named(name) => {
                let name = name.token.lexeme();
                write!(f, ", long={name}")
            }
            LongName::OfParameter => f.write_str(", long"),
        }
    }
}

/// An option with a string, if it is there.
#[derive(Clone, Copy)]
struct Assigned<'a, 'src> {
    name: &'a str,
    value: &'a Option<StringLiteral<'src>>,
}

impl fmt::Display for Assigned<'_, '_> {
    ghost use Rattle.std.specs.Option.{option_map};
    ghost use Rattle.tree_expressions.specs.Shape.{written};

    ghost output = { λ option. Some (spec.assigned_text option.name.now (option_map written option.value.now)) };

    fn fmt<W: fmt::Write>(&self, f: &mut fmt::Formatter<W>) -> fmt::Result {
        let name = self.name;
        match self.value {
            None => Ok(()),
            Some(value) => {
                let value = value.token.lexeme();
                write!(f, ", {name}={value}")
            }
        }
    }
}

/// A parameter's name, and the options that `arg` gives it.
#[derive(Drop)]
pub struct ArgumentOptions<'src> {
    pub flag: bool,
    pub help: Option<StringLiteral<'src>>,
    pub long: LongName<'src>,
    pub max: Option<StringLiteral<'src>>,
    pub min: Option<StringLiteral<'src>>,
    pub multiple: bool,
    pub name: StringLiteral<'src>,
    pub short: Option<StringLiteral<'src>>,
    pub value: Option<Expression<'src>>,
}

impl ArgumentOptions<'_> {
    fn print_front<W: fmt::Write>(&self, f: &mut fmt::Formatter<W>) -> fmt::Result
        ensures { WritesOnOk W.write_str_gives f.old result (spec.options_front (spec.options_shape self.now)) f.new }
    {
        let name = self.name.token.lexeme();
        let flag = if self.flag { ", flag" } else { "" };
        let help = Assigned {
            name: "help",
            value: &self.help,
        };
        let long = &self.long;
        write!(f, "{name}{flag}{help}{long}")
    }

    fn print_middle<W: fmt::Write>(&self, f: &mut fmt::Formatter<W>) -> fmt::Result
        ensures { WritesOnOk W.write_str_gives f.old result (spec.options_middle (spec.options_shape self.now)) f.new }
    {
        let max = Assigned {
            name: "max",
            value: &self.max,
        };
        let min = Assigned {
            name: "min",
            value: &self.min,
        };
        let multiple = if self.multiple { ", multiple" } else { "" };
        let short = Assigned {
            name: "short",
            value: &self.short,
        };
        write!(f, "{max}{min}{multiple}{short}")
    }

    fn print_value<W: fmt::Write>(&self, f: &mut fmt::Formatter<W>) -> fmt::Result
        ensures { WritesOnOk W.write_str_gives f.old result (spec.options_end (spec.options_shape self.now)) f.new }
    {
        match &self.value {
            None => Ok(()),
            Some(value) => write!(f, ", value={value}"),
        }
    }
}

/// The parameter's name, and the options in the order of their names.
impl fmt::Display for ArgumentOptions<'_> {
    ghost output = { λ options. Some (spec.options_text (spec.options_shape options)) };

    fn fmt<W: fmt::Write>(&self, f: &mut fmt::Formatter<W>) -> fmt::Result {
        self.print_front(f)?;
        self.print_middle(f)?;
        self.print_value(f)
    }
}

/// An attribute and its arguments. What few have lies in a box, so that all others stay small.
pub enum Attribute<'src> {
    Android,
    Arg(Box<ArgumentOptions<'src>>),
    Cache,
    Confirm(Option<Expression<'src>>),
    Default,
    Doc(Option<StringLiteral<'src>>),
    Dragonfly,
    Env {
        key: Expression<'src>,
        value: Box<Expression<'src>>,
    },
    ExitMessage,
    Extension(StringLiteral<'src>),
    Freebsd,
    Group(StringLiteral<'src>),
    Linux,
    Macos,
    /// One or more strings.
    Metadata {
        first: StringLiteral<'src>,
        others: Vec<StringLiteral<'src>>,
    },
    Netbsd,
    NoCd,
    NoExitMessage,
    NoQuiet,
    Openbsd,
    Parallel,
    PositionalArguments,
    Private,
    Script(Option<Box<Interpreter<Expression<'src>>>>),
    Unix,
    Windows,
    WorkingDirectory(StringLiteral<'src>),
}

impl Drop for Attribute<'_> {
    fn drop(self) {
        match self {
            Attribute::Android
            | Attribute::Cache
            | Attribute::Default
            | Attribute::Dragonfly
            | Attribute::ExitMessage
            | Attribute::Freebsd
            | Attribute::Linux
            | Attribute::Macos
            | Attribute::Netbsd
            | Attribute::NoCd
            | Attribute::NoExitMessage
            | Attribute::NoQuiet
            | Attribute::Openbsd
            | Attribute::Parallel
            | Attribute::PositionalArguments
            | Attribute::Private
            | Attribute::Unix
            | Attribute::Windows => {}
            Attribute::Arg(_value) => {}
            Attribute::Confirm(_value) => {}
            Attribute::Doc(_value) => {}
            Attribute::Env {
                key: _key,
                value: _value,
            } => {}
            Attribute::Extension(_value)
            | Attribute::Group(_value)
            | Attribute::WorkingDirectory(_value) => {}
            Attribute::Metadata {
                first: _first,
                others: _others,
            } => {}
            Attribute::Script(_value) => {}
        }
    }
}

impl Attribute<'_> {
    /// Which attribute it is, whatever its arguments.
    pub fn kind(&self) -> AttributeKind
        ensures { result ≡ spec.kind_of (spec.attribute_shape self.now) }
    {
        match self {
            Attribute::Android => AttributeKind::Android,
            Attribute::Arg(_) => AttributeKind::Arg,
            Attribute::Cache => AttributeKind::Cache,
            Attribute::Confirm(_) => AttributeKind::Confirm,
            Attribute::Default => AttributeKind::Default,
            Attribute::Doc(_) => AttributeKind::Doc,
            Attribute::Dragonfly => AttributeKind::Dragonfly,
            Attribute::Env { .. } => AttributeKind::Env,
            Attribute::ExitMessage => AttributeKind::ExitMessage,
            Attribute::Extension(_) => AttributeKind::Extension,
            Attribute::Freebsd => AttributeKind::Freebsd,
            Attribute::Group(_) => AttributeKind::Group,
            Attribute::Linux => AttributeKind::Linux,
            Attribute::Macos => AttributeKind::Macos,
            Attribute::Metadata { .. } => AttributeKind::Metadata,
            Attribute::Netbsd => AttributeKind::Netbsd,
            Attribute::NoCd => AttributeKind::NoCd,
            Attribute::NoExitMessage => AttributeKind::NoExitMessage,
            Attribute::NoQuiet => AttributeKind::NoQuiet,
            Attribute::Openbsd => AttributeKind::Openbsd,
            Attribute::Parallel => AttributeKind::Parallel,
            Attribute::PositionalArguments => AttributeKind::PositionalArguments,
            Attribute::Private => AttributeKind::Private,
            Attribute::Script(_) => AttributeKind::Script,
            Attribute::Unix => AttributeKind::Unix,
            Attribute::Windows => AttributeKind::Windows,
            Attribute::WorkingDirectory(_) => AttributeKind::WorkingDirectory,
        }
    }

    /// The name as it is written.
    pub fn name(&self) -> &'static str
        ensures { result.now ≡ spec.kind_name (spec.kind_of (spec.attribute_shape self.now)) }
    {
        self.kind().name()
    }

    /// Whether an item may have more than one of this kind.
    pub fn repeatable(&self) -> bool
        ensures { result ≡ spec.is_repeatable (spec.kind_of (spec.attribute_shape self.now)) }
    {
        self.kind().is_repeatable()
    }
}

/// The name, and the arguments in parentheses if there are any.
impl fmt::Display for Attribute<'_> {
    ghost output = { λ attribute. Some (spec.attribute_text (spec.attribute_shape attribute)) };

    fn fmt<W: fmt::Write>(&self, f: &mut fmt::Formatter<W>) -> fmt::Result {
        match self {
            Attribute::Arg(options) => write!(f, "arg({options})"),
            Attribute::Confirm(Some(prompt)) => write!(f, "confirm({prompt})"),
            Attribute::Doc(Some(text)) => print_string(f, "doc", text),
            Attribute::Env { key, value } => write!(f, "env({key}, {value})"),
            Attribute::Extension(text) => print_string(f, "extension", text),
            Attribute::Group(text) => print_string(f, "group", text),
            Attribute::Metadata { first, others } => print_metadata(f, first, others),
            Attribute::Script(Some(interpreter)) => print_script(f, interpreter),
            Attribute::WorkingDirectory(text) => print_string(f, "working-directory", text),
            _ => f.write_str(self.name()),
        }
    }
}

/// An attribute with a string.
fn print_string<W: fmt::Write>(
    f: &mut fmt::Formatter<W>,
    name: &str,
    text: &StringLiteral,
) -> fmt::Result
    ensures { WritesOnOk W.write_str_gives f.old result (name.now ++ codes "(" ++ spec.written text.now ++ codes ")") f.new }
{
    let text = text.token.lexeme();
    write!(f, "{name}({text})")
}

/// `metadata` and its strings.
fn print_metadata<W: fmt::Write>(
    f: &mut fmt::Formatter<W>,
    first: &StringLiteral,
    others: &[StringLiteral],
) -> fmt::Result
    ensures { WritesOnOk W.write_str_gives f.old result (codes "metadata(" ++ spec.written first.now ++ spec.strings_text (spec.strings_of others.now) ++ codes ")") f.new }
{
    let first = first.token.lexeme();
    let others = Strings(others);
    write!(f, "metadata({first}{others})")
}

/// `script` and its interpreter.
fn print_script<W: fmt::Write>(
    f: &mut fmt::Formatter<W>,
    interpreter: &Interpreter<Expression>,
) -> fmt::Result
    ensures { WritesOnOk W.write_str_gives f.old result (codes "script(" ++ spec.expressions_text (spec.interpreter_shape interpreter.now) ++ codes ")") f.new }
{
    let command = &interpreter.command;
    let arguments = Elements(interpreter.arguments.as_slice());
    write!(f, "script({command}{arguments})")
}
