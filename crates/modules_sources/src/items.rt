//! What items say of files.
ghost use Rattle.std.specs.Prelude.{◌≡◌, option_map};
ghost use Rattle.modules_sources.specs.Items as spec;
ghost use Rattle.modules_sources.specs.Items.{line_of_import, line_of_module};

use just_text::Os;
use modules_compilation::File;
use modules_files::{ImportLine, ModuleLine};
use tree_items::Item;

/// The items of the file, in their order.
pub fn items_of<'file, 'src>(file: &'file File<'src>) -> &'file [Item<'src>]
    ensures { result.now ≡ file.now.ast.items.items }
{
    file.ast.items.as_slice()
}

/// What the item says, if it is an import.
pub fn import_of<'item>(item: &'item Item<'_>) -> Option<ImportLine<'item>>
    ensures { option_map line_of_import result ≡ spec.import_of item.now }
{
    match item {
        Item::Import(import) => Some(ImportLine {
            path: import.path.cooked.as_str(),
            optional: import.optional,
        }),
        _ => None,
    }
}

/// What the item says, if it is a submodule that is there under this operating system.
pub fn module_of<'item, 'src>(item: &'item Item<'src>, os: Os) -> Option<ModuleLine<'item, 'src>>
    ensures { option_map line_of_module result ≡ spec.module_of os item.now }
{
    match item {
        Item::Module(module) if module.attributes.is_enabled(os) => Some(ModuleLine {
            name: module.name,
            path: match &module.path {
                Some(path) => Some(path.cooked.as_str()),
                None => None,
            },
            optional: module.optional,
        }),
        _ => None,
    }
}
