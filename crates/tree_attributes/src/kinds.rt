//! Kinds of attributes by their names.
ghost use Rattle.std.specs.Prelude.{◌≡◌, IfSome, Some};
ghost use Rattle.tree_attributes.specs.Attributes.{kind_name};
ghost use Rattle.tree_attributes.specs.declared.attribute.AttributeKind.{AttributeKind};
ghost use Rattle.tree_attributes.specs.Kinds.{named};
ghost use Rattle.tree_attributes.specs.declared.kinds.TheConstants.{KINDS};

use crate::attribute::AttributeKind;

/// All kinds, by name.
const KINDS: [AttributeKind; 27] = [
    AttributeKind::Android,
    AttributeKind::Arg,
    AttributeKind::Cache,
    AttributeKind::Confirm,
    AttributeKind::Default,
    AttributeKind::Doc,
    AttributeKind::Dragonfly,
    AttributeKind::Env,
    AttributeKind::ExitMessage,
    AttributeKind::Extension,
    AttributeKind::Freebsd,
    AttributeKind::Group,
    AttributeKind::Linux,
    AttributeKind::Macos,
    AttributeKind::Metadata,
    AttributeKind::Netbsd,
    AttributeKind::NoCd,
    AttributeKind::NoExitMessage,
    AttributeKind::NoQuiet,
    AttributeKind::Openbsd,
    AttributeKind::Parallel,
    AttributeKind::PositionalArguments,
    AttributeKind::Private,
    AttributeKind::Script,
    AttributeKind::Unix,
    AttributeKind::Windows,
    AttributeKind::WorkingDirectory,
];

/// The first kind with this name.
fn first_named(text: &str) -> Option<AttributeKind>
    ensures named { IfSome result (λ kind. kind_name kind ≡ text.now) }
    ensures first { result ≡ named text.now KINDS }
{
    KINDS.iter().copied().find(|kind| kind.name() == text)
}

/// The kind of attribute that is written so, if there is one.
pub fn kind_from_name(text: &str) -> Option<AttributeKind>
    ensures named { IfSome result (λ kind. kind_name kind ≡ text.now) }
    ensures found { (kind : AttributeKind) → kind_name kind ≡ text.now → result ≡ Some kind }
{
    first_named(text)
}
