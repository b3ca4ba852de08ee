//! Functions that change the case of letters.
ghost use Rattle.std.specs.Prelude.{◌≡◌, IfOk};
ghost use Rattle.std.specs.Str.{IsAscii};
ghost use Rattle.std.specs.String.{string_bytes};
ghost use Rattle.evaluate_functions.specs.Functions as spec;
ghost use Rattle.evaluate_functions.specs.Functions.{Answers};

use crate::fault::FunctionFault;
use crate::function::Function;
use just_text::Text;
use just_value::Value;
use std::alloc::{AllocError, Global};

/// Which letters become upper case.
#[derive(Clone, Copy)]
pub enum Case {
    /// The first character alone; all others become lower case.
    First,
    Lower,
    Upper,
}

impl Case {
    /// The case that the function gives letters; none where it is no such function.
    pub fn of(function: Function) -> Option<Case>
        ensures { result ≡ spec.case_of function }
    {
        match function {
            Function::Capitalize => Some(Case::First),
            Function::Lowercase => Some(Case::Lower),
            Function::Uppercase => Some(Case::Upper),
            _ => None,
        }
    }
}

/// The text with its letters in this case. Refused where it is not ASCII.
pub fn cased(alloc: Global, case: Case, text: &str) -> Result<Value, FunctionFault>
    ensures { Answers (spec.recased (spec.letters case) text.now) result }
{
    if !text.is_ascii() {
        let message = format!(in alloc; "`{text}` is not ASCII")?;
        return Err(FunctionFault::Message(Text::from_string(message)));
    }
    let text = ascii_cased(alloc, case, text)?;
    Ok(Value::from_string(alloc, text)?)
}

/// The text, where it is ASCII with its letters in this case.
fn ascii_cased(alloc: Global, case: Case, text: &str) -> Result<String, AllocError>
    ensures { IsAscii text.now → IfOk result (λ s. string_bytes s ≡ spec.letters case text.now) }
{
    match case {
        Case::First => capitalized(alloc, text),
        Case::Lower => text.to_ascii_lowercase(alloc),
        Case::Upper => text.to_ascii_uppercase(alloc),
    }
}

/// The text with its first letter in upper case and all others in lower case, where it is ASCII.
fn capitalized(alloc: Global, text: &str) -> Result<String, AllocError>
    ensures { IsAscii text.now → IfOk result (λ s. string_bytes s ≡ spec.capitalized text.now) }
{
    let mut characters = text.chars();
    let Some(first) = characters.next() else {
        return Ok(String::new(alloc));
    };
    let others = characters.as_str().to_ascii_lowercase(alloc)?;
    let mut made = String::new(alloc);
    made.push(first.to_ascii_uppercase())?;
    made.push_str(others.as_str())?;
    Ok(made)
}
