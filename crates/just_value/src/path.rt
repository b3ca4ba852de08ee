//! Parts of paths. A path's parts stand between `/`; empty ones don't count, and `.` counts only
//! where it comes first.
ghost use Rattle.std.specs.Prelude.{◌≡◌, ◌≢◌, IfOk, IfErr, Some, None, codes, ◌++◌};
ghost use Rattle.std.specs.String.{string_bytes};
ghost use Rattle.just_value.specs.Paths as spec;
ghost use Rattle.just_value.specs.declared.fault.ValueFault.TheVariants.{OutOfMemory, Path as Lacks};

use crate::fault::ValueFault;
use just_text::Text;
use std::alloc::{AllocError, Global};
use std::path::Path;

/// What is after the last dot of the file name. Refused where there is no file name, or no dot
/// after its first byte.
#[tactic(auto, using(crate::proofs::PathParts::extension_is))]
pub fn extension(alloc: Global, path: &str) -> Result<String, ValueFault<'static>>
    ensures found { IfOk result (λ s. spec.extension path.now ≡ Some (string_bytes s)) }
    ensures refused { IfErr result (λ e. e ≢ OutOfMemory → (spec.extension path.now ≡ None) × (e ≡ Lacks (spec.lacking (codes "extension") path.now))) }
{
    match Path::new(path).extension() {
        Some(extension) => Ok(String::from_str(alloc, extension)?),
        None => Err(lacks(alloc, "extension", path)?),
    }
}

/// The last part, if it is neither `.` nor `..`; else refused.
#[tactic(auto, using(crate::proofs::PathParts::file_name_is))]
pub fn file_name(alloc: Global, path: &str) -> Result<String, ValueFault<'static>>
    ensures found { IfOk result (λ s. spec.file_name path.now ≡ Some (string_bytes s)) }
    ensures refused { IfErr result (λ e. e ≢ OutOfMemory → (spec.file_name path.now ≡ None) × (e ≡ Lacks (spec.lacking (codes "file name") path.now))) }
{
    match Path::new(path).file_name() {
        Some(name) => Ok(String::from_str(alloc, name)?),
        None => Err(lacks(alloc, "file name", path)?),
    }
}

/// The file name before its last dot, or the whole where there is no dot after its first byte.
/// Refused where there is no file name.
#[tactic(auto, using(crate::proofs::PathParts::file_stem_is))]
pub fn file_stem(alloc: Global, path: &str) -> Result<String, ValueFault<'static>>
    ensures found { IfOk result (λ s. spec.file_stem path.now ≡ Some (string_bytes s)) }
    ensures refused { IfErr result (λ e. e ≢ OutOfMemory → (spec.file_stem path.now ≡ None) × (e ≡ Lacks (spec.lacking (codes "file stem") path.now))) }
{
    match Path::new(path).file_stem() {
        Some(stem) => Ok(String::from_str(alloc, stem)?),
        None => Err(lacks(alloc, "file stem", path)?),
    }
}

/// The beginning of the text up to the end of the part before the last, or `.` where that is empty.
/// Refused where there is no part after the root.
#[tactic(auto, using(crate::proofs::PathParts::parent_is))]
pub fn parent_directory(alloc: Global, path: &str) -> Result<String, ValueFault<'static>>
    ensures found { IfOk result (λ s. spec.directory path.now ≡ Some (string_bytes s)) }
    ensures refused { IfErr result (λ e. e ≢ OutOfMemory → (spec.directory path.now ≡ None) × (e ≡ Lacks (spec.lacking (codes "parent directory") path.now))) }
{
    match Path::new(path).parent() {
        Some(parent) => Ok(String::from_str(alloc, or_dot(parent.as_str()))?),
        None => Err(lacks(alloc, "parent directory", path)?),
    }
}

/// The text, or `.` where it is empty.
fn or_dot(text: &str) -> &str
    ensures { result.now ≡ spec.or_dot text.now }
{
    if text.is_empty() { "." } else { text }
}

/// The right side if it begins with `/`; else the left side, a `/` unless that is empty or ends in
/// one, and the right side.
#[tactic(auto, using(crate::proofs::PathParts::join_is))]
pub fn join(alloc: Global, left: &str, right: &str) -> Result<String, AllocError>
    ensures { IfOk result (λ s. string_bytes s ≡ spec.join left.now right.now) }
{
    let joined = Path::new(left).join(alloc, right)?;
    String::from_str(alloc, joined.as_str())
}

/// The parent joined with the stem. Refused where either is missing.
#[tactic(auto, using(crate::proofs::PathParts::parent_is, crate::proofs::PathParts::file_stem_is))]
pub fn without_extension(alloc: Global, path: &str) -> Result<String, ValueFault<'static>>
    ensures found { IfOk result (λ s. spec.stemmed path.now ≡ Some (string_bytes s)) }
    ensures refused { IfErr result (λ e. e ≢ OutOfMemory → (spec.stemmed path.now ≡ None) × (e ≡ Lacks (spec.stem_fault path.now))) }
{
    let Some(parent) = Path::new(path).parent() else {
        return Err(lacks(alloc, "parent", path)?);
    };
    let Some(stem) = Path::new(path).file_stem() else {
        return Err(lacks(alloc, "file stem", path)?);
    };
    Ok(join(alloc, parent.as_str(), stem)?)
}

/// The refusal of a path without such a part.
fn lacks(alloc: Global, part: &str, path: &str) -> Result<ValueFault<'static>, AllocError>
    ensures { IfOk result (λ e. e ≡ Lacks (spec.lacking part.now path.now)) }
{
    let text = format!(in alloc; "could not extract {part} from `{path}`")?;
    Ok(ValueFault::Path(Text::from_string(text)))
}
