//! Attributes that name operating systems, and those that items may carry.
ghost use Rattle.std.specs.Prelude.{◌≡◌};
ghost use Rattle.tree_attributes.specs.Sets.Sets as spec;

use crate::AttributeKind;
use crate::item_kind::ItemKind;
use just_text::Os;

/// Whether the attribute names an operating system or a family of them.
pub fn is_system(kind: AttributeKind) -> bool
    ensures { result ≡ spec.is_system kind }
{
    match kind {
        AttributeKind::Android
        | AttributeKind::Dragonfly
        | AttributeKind::Freebsd
        | AttributeKind::Linux
        | AttributeKind::Macos
        | AttributeKind::Netbsd
        | AttributeKind::Openbsd
        | AttributeKind::Unix
        | AttributeKind::Windows => true,
        _ => false,
    }
}

/// The attribute that names the operating system.
pub fn kind_for(os: Os) -> AttributeKind
    ensures { result ≡ spec.kind_for os }
{
    match os {
        Os::Android => AttributeKind::Android,
        Os::Dragonfly => AttributeKind::Dragonfly,
        Os::Freebsd => AttributeKind::Freebsd,
        Os::Linux => AttributeKind::Linux,
        Os::Macos => AttributeKind::Macos,
        Os::Netbsd => AttributeKind::Netbsd,
        Os::Openbsd => AttributeKind::Openbsd,
    }
}

/// Whether the attribute makes its item private.
pub fn is_private(kind: AttributeKind) -> bool
    ensures { result ≡ spec.is_private_kind kind }
{
    match kind {
        AttributeKind::Private => true,
        _ => false,
    }
}

fn is_description(kind: AttributeKind) -> bool
    ensures { result ≡ spec.is_description kind }
{
    match kind {
        AttributeKind::Doc | AttributeKind::Group => true,
        _ => false,
    }
}

/// Whether an item of this kind may carry the attribute.
pub fn may_carry(carrier: ItemKind, kind: AttributeKind) -> bool
    ensures { result ≡ spec.may_carry carrier kind }
{
    match carrier {
        ItemKind::Recipe => true,
        ItemKind::Module => is_description(kind) || is_private(kind) || is_system(kind),
        ItemKind::Alias => is_private(kind),
        ItemKind::Assignment => is_private(kind) || is_system(kind),
        ItemKind::Set => is_system(kind),
        _ => false,
    }
}
