//! Frames of the justfile's functions.
ghost use Rattle.std.specs.Prelude.{◌≡◌, ◌∷◌, IfOk, OnOk, map};
ghost use Rattle.meaning_dialogues.specs.Calls.{Frame, HasValues, empty, with_parameters};

use just_value::{Scope, Value};
use std::alloc::{AllocError, Global};
use tree_items::FunctionParameter;

/// A frame of the parameters alone, with these values, inside the scope's frames.
pub(crate) fn parameter_scope<'a, 'src>(
    alloc: Global,
    outer: &'a Scope<'_, 'src>,
    parameters: &[FunctionParameter<'src>],
    values: Vec<Value>,
) -> Result<Scope<'a, 'src>, AllocError>
    ensures { IfOk result (λ s. HasValues s.own (with_parameters empty (map (λ p. p.1) parameters.now) values.items) × (s.outer ≡ outer.now.own ∷ outer.now.outer)) }
{
    let mut scope = outer.child(alloc)?;
    match bind_all(&mut scope, parameters, values) {
        Ok(()) => Ok(scope),
        Err(refused) => {
            drop(scope);
            Err(refused)
        }
    }
}

/// Binds each parameter to the value at its place.
fn bind_all<'src>(
    scope: &mut Scope<'_, 'src>,
    parameters: &[FunctionParameter<'src>],
    values: Vec<Value>,
) -> Result<(), AllocError>
    ensures bound { OnOk result ((frame : Frame) → HasValues scope.old.own frame → HasValues scope.new.own (with_parameters frame (map (λ p. p.1) parameters.now) values.items)) }
    ensures around { scope.new.outer ≡ scope.old.outer }
{
    let mut values = values.into_iter();
    for parameter in parameters {
        let Some(value) = values.next() else {
            return Ok(());
        };
        scope.bind_value(parameter.name(), parameter.number(), false, value)?;
    }
    Ok(())
}
