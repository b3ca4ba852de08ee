//! Refusals in words, and where they stand.
use evaluate_context::Error;
use just_run::Fault;
use justfile_syntax::Token;
use scripted_files::write_place;
use std::alloc::{AllocError, Global};

/// What the evaluation was refused for, if that stands in a source.
fn evaluation_token<'src>(error: &Error<'src>) -> Option<Token<'src>> {
    match error {
        Error::Const(error) => Some(error.context()),
        Error::Backtick { token, .. } => Some(*token),
        Error::FunctionCall { name, .. } => Some(name.token),
        Error::RecursionLimit { last } => Some(last.token),
        Error::EmptyListArgument { parameter, .. } | Error::ValueCount { parameter, .. } => {
            Some(parameter.token)
        }
        Error::OutOfMemory | Error::NoParent(_) | Error::Internal(_) => None,
    }
}

/// What the call was refused for, if that stands in a source.
fn refused_token<'src>(fault: &Fault<'src>) -> Option<Token<'src>> {
    match fault {
        Fault::Opening(error) | Fault::Evaluation(error) => evaluation_token(error),
        _ => fault.place(),
    }
}

/// The fault, and where it stands, if that is told.
pub(crate) fn refused_text(
    alloc: Global,
    is_placed: bool,
    fault: &Fault<'_>,
) -> Result<String, AllocError> {
    let mut text = fault.to_string(alloc)?;
    if !is_placed {
        return Ok(text);
    }
    write_place(&mut text, refused_token(fault))?;
    Ok(text)
}
