//! What imports and submodules say of files.

use just_text::Name;

/// What an import says.
#[derive(Clone, Copy)]
pub struct ImportLine<'item> {
    pub path: &'item str,
    pub optional: bool,
}

/// What an item of a submodule says of its file.
#[derive(Clone, Copy)]
pub struct ModuleLine<'item, 'src> {
    pub name: Name<'src>,
    pub path: Option<&'item str>,
    pub optional: bool,
}
