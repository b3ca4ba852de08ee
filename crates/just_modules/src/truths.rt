//! The settings that decide which files are whole.
ghost use Rattle.std.specs.Prelude.{◌≡◌};
ghost use Rattle.tree_attributes.specs.Settings.{value_shape};
ghost use Rattle.tree_items.specs.Files.{item_shape};
ghost use Rattle.just_modules.specs.Settings.{allowed_by, is_on, is_on_among, is_true, truths_of, turns_on};

use just_text::Os;
use modules_compilation::File;
use modules_definitions::Allowed;
use tree_attributes::Setting;
use tree_items::Item;

/// Settings of a module that say what its files may hold.
#[derive(Clone, Copy, Debug, PartialEq, Eq)]
pub struct Truths {
    pub allow_duplicate_recipes: bool,
    pub allow_duplicate_variables: bool,
    pub default_script: bool,
    pub guards: bool,
    pub lists: bool,
    pub unstable: bool,
}

/// Whether the value is the truth.
fn is_true(setting: &Setting) -> bool
    ensures { result ≡ is_true (value_shape setting.now) }
{
    match setting {
        Setting::Truth(_, value) => *value,
        Setting::DotenvCommand(_)
        | Setting::DotenvFilename(_)
        | Setting::DotenvPath(_)
        | Setting::Indentation(_)
        | Setting::MinimumVersion(_)
        | Setting::ScriptInterpreter(_)
        | Setting::Shell(_)
        | Setting::Tempdir(_)
        | Setting::WindowsShell(_)
        | Setting::WorkingDirectory(_) => false,
    }
}

/// Whether the item makes the setting of this name true, and is not for another operating system.
#[tactic(auto, using(crate::proofs::Enabled::same_enabled))]
fn turns_on(item: &Item, name: &str, os: Os) -> bool
    ensures { result ≡ turns_on os name.now (item_shape item.now) }
{
    match item {
        Item::Set(set) => {
            set.attributes.is_enabled(os) && set.name.lexeme() == name && is_true(&set.value)
        }
        _ => false,
    }
}

/// Whether one of the items does.
fn is_on_among(items: &[Item], name: &str, os: Os) -> bool
    ensures { result ≡ is_on_among os name.now items.now }
{
    items.iter().any(|item| turns_on(item, name, os))
}

/// Whether an item of the file does.
fn is_on_in(file: &File, name: &str, os: Os) -> bool
    ensures { result ≡ is_on_among os name.now file.now.ast.items.items }
{
    is_on_among(file.ast.items.as_slice(), name, os)
}

/// Whether an item of one of the files does.
fn is_on(files: &[File], name: &str, os: Os) -> bool
    ensures { result ≡ is_on os files.now name.now }
{
    for file in files {
        if is_on_in(file, name, os) {
            return true;
        }
    }
    false
}

impl Truths {
    /// What the settings of a module say, whose files these are; a setting that is made twice is on
    /// where one of the two says so. Features that may still change are asked for by `unstable`, too.
    pub fn new(files: &[File], os: Os, unstable: bool) -> Truths
        ensures { result ≡ truths_of os unstable files.now }
    {
        Truths {
            allow_duplicate_recipes: is_on(files, "allow-duplicate-recipes", os),
            allow_duplicate_variables: is_on(files, "allow-duplicate-variables", os),
            default_script: is_on(files, "default-script", os),
            guards: is_on(files, "guards", os),
            lists: is_on(files, "lists", os),
            unstable: unstable || is_on(files, "unstable", os),
        }
    }

    /// What the module may define twice.
    pub fn allowed(&self) -> Allowed
        ensures { result ≡ allowed_by self.now }
    {
        Allowed {
            duplicate_recipes: self.allow_duplicate_recipes,
            duplicate_variables: self.allow_duplicate_variables,
        }
    }
}
