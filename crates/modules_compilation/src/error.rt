//! Why texts make no modules.
ghost use Rattle.std.specs.Prelude.{◌≡◌, Some};
ghost use Rattle.std.specs.Option.{option_map};
ghost use Rattle.std.specs.Fmt.{WritesOnOk};
ghost use Rattle.just_text.specs.Fields.{ticked_more};
ghost use Rattle.modules_compilation.specs.Refusals.{first_of, refusal_place, start_of};

use just_text::{CompileError, CompileErrorKind, Name, Namepath, Sequence, Text, Token};
use std::alloc::{AllocError, AllocFailed};
use std::fmt;
use tree_items::{ListFeature, UnstableFeature};

/// Why texts make no modules. It prints its name in lower case and its fields between backticks; a
/// refusal of a text alone prints as that.
#[derive(Debug, Drop)]
pub enum Error<'src> {
    /// Memory ran out.
    OutOfMemory,
    /// A file is no justfile, or no number is left for what it says.
    Syntax(CompileError<'src>),
    /// There is no text at this key, or it is no clean path.
    MissingRoot(&'src str),
    /// There is no text at this key, which an import names; or an import names no key, and this is
    /// its path as it is written.
    MissingImport(Text),
    /// The first file imports the second, or has it as a submodule's, and is reached from it.
    CircularImport {
        current: &'src str,
        import: &'src str,
    },
    /// There is no file for this submodule.
    MissingModule(Name<'src>),
    /// There are two files or more for this submodule, which are told in byte order.
    AmbiguousModule {
        name: Name<'src>,
        found: Sequence<Text>,
    },
    /// Another recipe, alias, submodule or function has this name.
    Redefinition(Name<'src>),
    /// Another variable has this name.
    DuplicateVariable(Name<'src>),
    /// The setting has a value already.
    DuplicateSet(Name<'src>),
    /// The name is not exported already.
    DuplicateUnexport(Name<'src>),
    /// The variable is exported, and its name is not to be.
    ExportUnexported(Name<'src>),
    /// The alias stands for no recipe and for no module.
    UnknownAliasTarget {
        alias: Name<'src>,
        target: Namepath<'src>,
    },
    /// The feature may still change, and is not asked for.
    UnstableFeature {
        feature: UnstableFeature,
        token: Token<'src>,
    },
    /// The feature needs the setting of lists.
    ListsNeeded {
        feature: ListFeature,
        token: Token<'src>,
    },
    /// The recipe is to be cached, which is left out.
    CacheLeftOut(Name<'src>),
    /// The recipe has two attributes, or an attribute and a body, that exclude one another.
    AttributeConflict {
        recipe: Name<'src>,
        one: &'static str,
        other: &'static str,
    },
}

/// The token from the path's first name to its last, as far as one text holds them.
pub fn path_token<'src>(path: &Namepath<'src>) -> Token<'src>
    ensures { Some (start_of result) ≡ option_map start_of (first_of path.now) }
{
    let first = path.names()[0].token;
    let last = path.last().token;
    let Some(end) = last.offset.checked_add(last.length) else {
        return first;
    };
    if end < first.offset || !first.src.is_char_boundary(end as usize) {
        return first;
    }
    Token {
        column: first.column,
        kind: first.kind,
        length: end - first.offset,
        line: first.line,
        offset: first.offset,
        path: first.path,
        src: first.src,
    }
}

impl<'src> Error<'src> {
    /// Where the refusal stands: at the token that is refused, the later definition's name, the path
    /// of an alias, or the name of the recipe or variable. Refusals of files, of submodules and of
    /// memory have no place.
    pub fn place(&self) -> Option<Token<'src>>
        ensures { option_map start_of result ≡ option_map start_of (refusal_place self.now) }
    {
        match self {
            Error::OutOfMemory
            | Error::MissingRoot(_)
            | Error::MissingImport(_)
            | Error::CircularImport { .. }
            | Error::MissingModule(_)
            | Error::AmbiguousModule { .. } => None,
            Error::Syntax(error) => error.place(),
            Error::Redefinition(name)
            | Error::DuplicateVariable(name)
            | Error::DuplicateSet(name)
            | Error::DuplicateUnexport(name)
            | Error::ExportUnexported(name)
            | Error::CacheLeftOut(name) => Some(name.token),
            Error::UnknownAliasTarget { target, .. } => Some(path_token(target)),
            Error::UnstableFeature { token, .. } | Error::ListsNeeded { token, .. } => Some(*token),
            Error::AttributeConflict { recipe, .. } => Some(recipe.token),
        }
    }
}

/// Writes the texts after the first one, each after a comma.
fn write_more<W: fmt::Write>(f: &mut fmt::Formatter<W>, texts: &[Text]) -> fmt::Result
    ensures { WritesOnOk W.write_str_gives f.old result (ticked_more texts.now) f.new }
{
    for text in texts {
        write!(f, ", `{text}`")?;
    }
    Ok(())
}

impl Error<'_> {
    ghost use Rattle.modules_compilation.specs.Refusals.{behind_name, refusal_name};

    /// Its name, without what it names. A refusal of a text alone has none here.
    fn name(&self) -> &'static str
        ensures { result.now ≡ refusal_name self.now }
    {
        match self {
            Error::OutOfMemory => "out of memory",
            Error::Syntax(_) => "",
            Error::MissingRoot(_) => "missing root",
            Error::MissingImport(_) => "missing import",
            Error::CircularImport { .. } => "circular import",
            Error::MissingModule(_) => "missing module",
            Error::AmbiguousModule { .. } => "ambiguous module",
            Error::Redefinition(_) => "redefinition",
            Error::DuplicateVariable(_) => "duplicate variable",
            Error::DuplicateSet(_) => "duplicate set",
            Error::DuplicateUnexport(_) => "duplicate unexport",
            Error::ExportUnexported(_) => "export unexported",
            Error::UnknownAliasTarget { .. } => "unknown alias target",
            Error::UnstableFeature { .. } => "unstable feature",
            Error::ListsNeeded { .. } => "lists needed",
            Error::CacheLeftOut(_) => "cache left out",
            Error::AttributeConflict { .. } => "attribute conflict",
        }
    }

    /// Writes what stands after its name.
    fn write_fields<W: fmt::Write>(&self, f: &mut fmt::Formatter<W>) -> fmt::Result
        ensures { WritesOnOk W.write_str_gives f.old result (behind_name self.now) f.new }
    {
        match self {
            Error::OutOfMemory => Ok(()),
            Error::Syntax(error) => fmt::Display::fmt(error, f),
            Error::MissingRoot(key) => write!(f, ": `{key}`"),
            Error::MissingImport(key) => write!(f, ": `{key}`"),
            Error::CircularImport { current, import } => write!(f, ": `{current}`, `{import}`"),
            Error::AmbiguousModule { name, found } => {
                write!(f, ": `{name}`")?;
                write_more(f, found.as_slice())
            }
            Error::MissingModule(name)
            | Error::Redefinition(name)
            | Error::DuplicateVariable(name)
            | Error::DuplicateSet(name)
            | Error::DuplicateUnexport(name)
            | Error::ExportUnexported(name)
            | Error::CacheLeftOut(name) => write!(f, ": `{name}`"),
            Error::UnknownAliasTarget { alias, target } => write!(f, ": `{alias}`, `{target}`"),
            Error::UnstableFeature { feature, .. } => write!(f, ": `{feature}`"),
            Error::ListsNeeded { feature, .. } => write!(f, ": `{feature}`"),
            Error::AttributeConflict { recipe, one, other } => {
                write!(f, ": `{recipe}`, `{one}`, `{other}`")
            }
        }
    }
}

impl fmt::Display for Error<'_> {
    ghost use Rattle.modules_compilation.specs.Refusals.{refusal_text};

    ghost output = { λ refusal. Some (refusal_text refusal) };

    fn fmt<W: fmt::Write>(&self, f: &mut fmt::Formatter<W>) -> fmt::Result {
        f.write_str(self.name())?;
        self.write_fields(f)
    }
}

impl std::error::Error for Error<'_> {}

impl From<AllocError> for Error<'_> {
    ghost use Rattle.modules_compilation.specs.declared.error.Error.TheVariants.{OutOfMemory};

    ghost from_gives = { λ _ e. e ≡ OutOfMemory };

    fn from(_refused: AllocError) -> Self {
        Error::OutOfMemory
    }
}

impl<T: Drop> From<AllocFailed<T>> for Error<'_> {
    ghost use Rattle.modules_compilation.specs.declared.error.Error.TheVariants.{OutOfMemory};

    ghost from_gives = { λ _ e. e ≡ OutOfMemory };

    fn from(_refused: AllocFailed<T>) -> Self {
        Error::OutOfMemory
    }
}

impl<'src> From<CompileError<'src>> for Error<'src> {
    fn from(error: CompileError<'src>) -> Self {
        match error.kind {
            CompileErrorKind::OutOfMemory => Error::OutOfMemory,
            _ => Error::Syntax(error),
        }
    }
}
