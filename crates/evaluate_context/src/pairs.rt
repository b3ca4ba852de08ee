//! Names with values, in the order in which they are given.
ghost use Rattle.std.specs.Prelude.{◌≡◌, ◌++◌, IfOk, OnOk, filter, map};
ghost use Rattle.evaluate_context.specs.Environment as spec;
ghost use Rattle.just_value.specs.Frames.{bound_of};

use just_host::Pair;
use just_text::{Name, Sequence, Text};
use just_value::{Bound, Frame, Scope};
use std::alloc::{AllocError, Global};
use std::collections::BTreeMap;

/// The pairs of files of variables and of the exported bindings, outermost first, without these
/// names, and then those of `env`.
pub(crate) fn given_pairs(
    alloc: Global,
    dotenv: &BTreeMap<String, String>,
    export: bool,
    unexports: &[Name],
    env: &[Pair],
    scope: &Scope,
) -> Result<Sequence<Pair>, AllocError>
    ensures { IfOk result (λ pairs. pairs ≡ spec.given_pairs dotenv.now.entries export (spec.texts unexports.now) env.now scope.now.outer) }
{
    let mut pairs = Sequence::new(alloc);
    push_variables(alloc, &mut pairs, dotenv)?;
    push_frames(alloc, &mut pairs, export, scope)?;
    let mut pairs = without(pairs, unexports);
    push_pairs(&mut pairs, env)?;
    Ok(pairs)
}

/// The name with its value.
fn pair(alloc: Global, name: &str, value: &str) -> Result<Pair, AllocError>
    ensures { IfOk result (λ pair. pair ≡ record { name = name.now; value = value.now }) }
{
    let name = Text::from_text(alloc, name)?;
    let value = Text::from_text(alloc, value)?;
    Ok(Pair { name, value })
}

fn push_variables(
    alloc: Global,
    pairs: &mut Sequence<Pair>,
    variables: &BTreeMap<String, String>,
) -> Result<(), AllocError>
    ensures { OnOk result (pairs.new ≡ pairs.old ++ map spec.variable variables.now.entries) }
{
    for (name, value) in variables {
        pairs.push(pair(alloc, name.as_str(), value.as_str())?)?;
    }
    Ok(())
}

/// The exported bindings of the frames around the innermost one, outermost first.
fn push_frames(
    alloc: Global,
    pairs: &mut Sequence<Pair>,
    export: bool,
    scope: &Scope,
) -> Result<(), AllocError>
    ensures { OnOk result (pairs.new ≡ pairs.old ++ spec.frames_pairs export scope.now.outer) }
{
    let frames = scope.outer();
    for place in (0..frames.len()).rev() {
        push_frame(alloc, pairs, export, frames[place])?;
    }
    Ok(())
}

/// The exported bindings of the frame.
fn push_frame(
    alloc: Global,
    pairs: &mut Sequence<Pair>,
    export: bool,
    frame: &Frame,
) -> Result<(), AllocError>
    ensures { OnOk result (pairs.new ≡ pairs.old ++ spec.frame_pairs export frame.now) }
{
    for binding in frame.bindings() {
        if is_exported(export, binding) {
            pairs.push(binding_pair(alloc, binding)?)?;
        }
    }
    Ok(())
}

/// Whether commands are told of the binding.
#[tactic(auto, unfolding(just_value::specs::Frames::bound_of))]
fn is_exported(export: bool, binding: &Bound) -> bool
    ensures { result ≡ spec.is_exported export (bound_of binding.now) }
{
    binding.export || (export && !binding.prelude)
}

/// The binding's name with the elements of its value, joined.
#[tactic(auto, unfolding(just_value::specs::Frames::bound_of))]
fn binding_pair(alloc: Global, binding: &Bound) -> Result<Pair, AllocError>
    ensures { IfOk result (λ pair. pair ≡ spec.binding_pair (bound_of binding.now)) }
{
    let value = binding.value.join(alloc)?;
    pair(alloc, binding.name.lexeme(), value.as_str())
}

/// Whether the name is one of these.
fn is_among(names: &[Name], name: &str) -> bool
    ensures { result ≡ spec.is_among (spec.texts names.now) name.now }
{
    for other in names {
        if other.lexeme() == name {
            return true;
        }
    }
    false
}

/// The pairs with other names than these.
fn without(pairs: Sequence<Pair>, names: &[Name]) -> Sequence<Pair>
    ensures { result ≡ spec.without (spec.texts names.now) pairs }
{
    let mut pairs = pairs.into_vec();
    pairs.retain(|pair| !is_among(names, pair.name.as_str()));
    Sequence::from_vec(pairs)
}

fn push_pairs(pairs: &mut Sequence<Pair>, others: &[Pair]) -> Result<(), AllocError>
    ensures { OnOk result (pairs.new ≡ pairs.old ++ others.now) }
{
    for other in others {
        pairs.push(other.clone()?)?;
    }
    Ok(())
}
