//! Functions on paths.
ghost use Rattle.std.specs.Prelude.{◌≡◌, ◌≢◌, ◌∷◌, [], ℕ, List, Option, Some, None, Ok, IfOk, IfErr, option_map};
ghost use Rattle.std.specs.String.{string_bytes};
ghost use Rattle.just_value.specs.Paths as spec;
ghost use Rattle.just_value.specs.declared.fault.ValueFault.TheVariants.{OutOfMemory, Path as Lacks};
ghost use Rattle.evaluate_functions.specs.Functions as functions;
ghost use Rattle.evaluate_functions.specs.Functions.{Answers, AnswersAny};

use crate::fault::FunctionFault;
use crate::function::Function;
use crate::pure::text_of;
use just_text::Text;
use just_value::path::{
    extension, file_name, file_stem, join, parent_directory, without_extension,
};
use just_value::{Value, ValueFault};
use std::alloc::{AllocError, Global};
use std::path::Path;

/// The part of the path that the function gives, or its refusal where the path lacks it; none where
/// it is no such function.
pub fn path_answer(
    alloc: Global,
    function: Function,
    path: &str,
) -> Option<Result<Value, FunctionFault>>
    ensures { AnswersAny (functions.path_answer function path.now) result }
{
    match function {
        Function::Extension => Some(part_value(alloc, extension(alloc, path))),
        Function::FileName => Some(part_value(alloc, file_name(alloc, path))),
        Function::FileStem => Some(part_value(alloc, file_stem(alloc, path))),
        Function::ParentDirectory => Some(part_value(alloc, parent_directory(alloc, path))),
        Function::WithoutExtension => Some(part_value(alloc, without_extension(alloc, path))),
        _ => None,
    }
}

/// The part as a value, or what is said where the path lacks it.
fn part_value(
    alloc: Global,
    part: Result<String, ValueFault<'static>>,
) -> Result<Value, FunctionFault>
    ensures { (found : Option (List ℕ)) (refusal : List ℕ) → IfOk part.entry (λ s. found ≡ Some (string_bytes s)) → IfErr part.entry (λ e. e ≢ OutOfMemory → (found ≡ None) × (e ≡ Lacks refusal)) → Answers (functions.part_or refusal found) result }
{
    match part {
        Ok(text) => valued(alloc, text),
        Err(ValueFault::Path(message)) => Err(FunctionFault::Message(message)),
        Err(_) => Err(FunctionFault::OutOfMemory),
    }
}

/// The text alone.
fn valued(alloc: Global, text: String) -> Result<Value, FunctionFault>
    ensures { Answers (Ok (string_bytes text ∷ [])) result }
{
    Ok(Value::from_string(alloc, text)?)
}

/// The paths joined from the left.
pub fn joined(alloc: Global, paths: &[Value]) -> Result<Value, AllocError>
    ensures { IfOk result (λ v. v ≡ functions.path_of paths.now ∷ []) }
{
    let mut whole = String::new(alloc);
    for path in paths {
        whole = join(alloc, whole.as_str(), text_of(path))?;
    }
    Value::from_string(alloc, whole)
}

/// The beginning of the path up to the end of the part before the last; none where there is no part
/// after the root.
#[tactic(auto, using(crate::proofs::Parents::parent_is))]
pub fn parent(path: &str) -> Option<&str>
    ensures { option_map (λ parent. parent.now) result ≡ spec.parent path.now }
{
    match Path::new(path).parent() {
        Some(parent) => Some(parent.as_str()),
        None => None,
    }
}
