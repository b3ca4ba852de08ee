//! The folder that a root file is sought in.
ghost use Rattle.std.specs.Prelude.{IfOk, option_copied};
ghost use Rattle.std.specs.String.{string_bytes};
ghost use Rattle.program_loader.specs.Folders.{IsBase, IsWithoutSlash};

use just_text::Text;
use std::alloc::{AllocError, Global};
use std::path::Path;

/// The current folder joined with the search directory, without a slash at its end unless it is the root of all
/// folders; without a search directory the current folder.
pub fn base_folder(
    alloc: Global,
    current: &str,
    directory: Option<&Text>,
) -> Result<String, AllocError>
    ensures { IfOk result (λ folder. IsBase current.now (option_copied directory.entry) (string_bytes folder)) }
{
    let Some(directory) = directory else {
        return String::from_str(alloc, current);
    };
    let joined = Path::new(current).join(alloc, directory.as_str())?;
    String::from_str(alloc, without_slash(joined.as_str()))
}

/// The path without a slash at its end; `/` as it is.
fn without_slash(path: &str) -> &str
    ensures { IsWithoutSlash path.now result.now }
{
    let Some(front) = path.strip_suffix('/') else {
        return path;
    };
    if front.is_empty() { path } else { front }
}
