//! What is evaluated.
ghost use Rattle.std.specs.Prelude.{◌≡◌};
ghost use Rattle.justfile_analyzer.specs.Targets as spec;

use evaluate_context::AssignmentRef;
use just_text::Number;
use modules_compilation::ModuleNode;
use resolve_analysis::ModuleLists;
use resolve_recipes::find_submodule;

/// What is evaluated.
#[derive(Clone, Copy, Debug)]
pub enum EvaluationTarget {
    /// The variables of the module at this place.
    Module(usize),
    /// The variable with this number, of the module at this place.
    Variable { module: usize, number: Number },
}

/// Whether the variable has the name.
fn has_name(variable: &AssignmentRef, name: &str) -> bool
    ensures { result ≡ spec.has_name name.now variable.now }
{
    variable.assignment.name.lexeme() == name
}

/// The number of the variable of this name.
fn number_of(variables: &[AssignmentRef], name: &str) -> Option<Number>
    ensures { result ≡ spec.number_named variables.now name.now }
{
    match variables.iter().find(|variable| has_name(variable, name)) {
        Some(variable) => Some(variable.assignment.number),
        None => None,
    }
}

/// The variable of this name that the module at the place keeps.
fn variable<'src>(
    lists: &[ModuleLists<'src, '_>],
    module: usize,
    name: &str,
) -> Option<EvaluationTarget>
    ensures { result ≡ spec.variable_in lists.now «module» name.now }
{
    let kept = lists.get(module)?;
    match number_of(kept.assignments.as_slice(), name) {
        Some(number) => Some(EvaluationTarget::Variable { module, number }),
        None => None,
    }
}

/// The submodule or else the variable of this name, in a module that was found.
fn target<'src>(
    modules: &[ModuleNode<'src>],
    lists: &[ModuleLists<'src, '_>],
    found: Option<EvaluationTarget>,
    name: &str,
) -> Option<EvaluationTarget>
    ensures { spec.AreInOrder modules.now → result ≡ spec.leads_on modules.now lists.now found name.now }
{
    let Some(EvaluationTarget::Module(module)) = found else {
        return None;
    };
    match find_submodule(modules, module, name) {
        Some(submodule) => Some(EvaluationTarget::Module(submodule)),
        None => variable(lists, module, name),
    }
}

/// What the word names from the root of these modules, which keep this: a module, or a variable, after
/// the names of the modules that lead to it with `::` between two. A module comes before a variable of
/// its name. Submodules are in byte order of names. Takes no memory.
pub fn evaluation_target<'src>(
    modules: &[ModuleNode<'src>],
    lists: &[ModuleLists<'src, '_>],
    word: &str,
) -> Option<EvaluationTarget>
    ensures { spec.AreInOrder modules.now → result ≡ spec.target_of modules.now lists.now word.now }
{
    let mut found = Some(EvaluationTarget::Module(0));
    let mut rest = word;
    while let Some((name, others)) = rest.split_once("::") {
        found = target(modules, lists, found, name);
        rest = others;
    }
    target(modules, lists, found, rest)
}
