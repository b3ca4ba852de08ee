//! What recipes and settings call and read.
ghost use Rattle.std.specs.Prelude.{◌≡◌, ◌++◌, IfOk, OnOk};
ghost use Rattle.std.specs.List.{flat_map};
ghost use Rattle.tree_attributes.specs.Sets.Sets.{items_of};
ghost use Rattle.resolve_references.specs.References.{references_of};
ghost use Rattle.resolve_references.specs.ItemReferences.{references_of_argument, references_of_attribute, references_of_attribute_item, references_of_dependency, references_of_fragment, references_of_interpreter, references_of_line, references_of_optional, references_of_parameter, references_of_recipe, references_of_set};

use crate::references::References;
use std::alloc::{AllocError, Global};
use tree_attributes::{Attribute, AttributeSet, Interpreter, Setting};
use tree_expressions::Expression;
use tree_items::{Fragment, Line, Parameter, Recipe, Set, UnresolvedDependency};

fn add_row<'src>(
    references: &mut References<'src>,
    expressions: &[Expression<'src>],
) -> Result<(), AllocError>
    ensures { OnOk result (references.new.list.items ≡ references.old.list.items ++ flat_map references_of expressions.now) }
{
    for expression in expressions {
        references.add(expression)?;
    }
    Ok(())
}

/// Adds the command's calls and variables, and those of its arguments.
fn add_interpreter<'src>(
    references: &mut References<'src>,
    interpreter: &Interpreter<Expression<'src>>,
) -> Result<(), AllocError>
    ensures { OnOk result (references.new.list.items ≡ references.old.list.items ++ references_of_interpreter interpreter.now) }
{
    references.add(&interpreter.command)?;
    add_row(references, interpreter.arguments.as_slice())
}

fn add_if_there<'src>(
    references: &mut References<'src>,
    expression: &Option<Expression<'src>>,
) -> Result<(), AllocError>
    ensures { OnOk result (references.new.list.items ≡ references.old.list.items ++ references_of_optional expression.now) }
{
    match expression {
        Some(expression) => references.add(expression),
        None => Ok(()),
    }
}

fn add_pair<'src>(
    references: &mut References<'src>,
    key: &Expression<'src>,
    value: &Expression<'src>,
) -> Result<(), AllocError>
    ensures { OnOk result (references.new.list.items ≡ references.old.list.items ++ (references_of key.now ++ references_of value.now)) }
{
    references.add(key)?;
    references.add(value)
}

/// Adds those of the attribute. An `arg` has none of its own: what its option stands for is the
/// parameter's.
fn add_attribute<'src>(
    references: &mut References<'src>,
    attribute: &Attribute<'src>,
) -> Result<(), AllocError>
    ensures { OnOk result (references.new.list.items ≡ references.old.list.items ++ references_of_attribute attribute.now) }
{
    match attribute {
        Attribute::Confirm(prompt) => add_if_there(references, prompt),
        Attribute::Env { key, value } => add_pair(references, key, value),
        Attribute::Script(Some(interpreter)) => add_interpreter(references, interpreter),
        _ => Ok(()),
    }
}

fn add_attributes<'src>(
    references: &mut References<'src>,
    attributes: &AttributeSet<'src>,
) -> Result<(), AllocError>
    ensures { OnOk result (references.new.list.items ≡ references.old.list.items ++ flat_map references_of_attribute_item (items_of attributes.now)) }
{
    for item in attributes.iter() {
        add_attribute(references, &item.attribute)?;
    }
    Ok(())
}

fn add_parameter<'src>(
    references: &mut References<'src>,
    parameter: &Parameter<'src>,
) -> Result<(), AllocError>
    ensures { OnOk result (references.new.list.items ≡ references.old.list.items ++ references_of_parameter parameter.now) }
{
    add_if_there(references, &parameter.default)?;
    add_if_there(references, &parameter.value)
}

fn add_parameters<'src>(
    references: &mut References<'src>,
    parameters: &[Parameter<'src>],
) -> Result<(), AllocError>
    ensures { OnOk result (references.new.list.items ≡ references.old.list.items ++ flat_map references_of_parameter parameters.now) }
{
    for parameter in parameters {
        add_parameter(references, parameter)?;
    }
    Ok(())
}

fn add_dependency<'src>(
    references: &mut References<'src>,
    dependency: &UnresolvedDependency<'src>,
) -> Result<(), AllocError>
    ensures { OnOk result (references.new.list.items ≡ references.old.list.items ++ references_of_dependency dependency.now) }
{
    for argument in &dependency.arguments {
        references.add(&argument.expression)?;
    }
    Ok(())
}

fn add_dependencies<'src>(
    references: &mut References<'src>,
    dependencies: &[UnresolvedDependency<'src>],
) -> Result<(), AllocError>
    ensures { OnOk result (references.new.list.items ≡ references.old.list.items ++ flat_map references_of_dependency dependencies.now) }
{
    for dependency in dependencies {
        add_dependency(references, dependency)?;
    }
    Ok(())
}

fn add_fragment<'src>(
    references: &mut References<'src>,
    fragment: &Fragment<'src>,
) -> Result<(), AllocError>
    ensures { OnOk result (references.new.list.items ≡ references.old.list.items ++ references_of_fragment fragment.now) }
{
    match fragment {
        Fragment::Interpolation { expression } => references.add(expression),
        Fragment::Text { .. } => Ok(()),
    }
}

fn add_line<'src>(references: &mut References<'src>, line: &Line<'src>) -> Result<(), AllocError>
    ensures { OnOk result (references.new.list.items ≡ references.old.list.items ++ references_of_line line.now) }
{
    for fragment in &line.fragments {
        add_fragment(references, fragment)?;
    }
    Ok(())
}

fn add_body<'src>(references: &mut References<'src>, body: &[Line<'src>]) -> Result<(), AllocError>
    ensures { OnOk result (references.new.list.items ≡ references.old.list.items ++ flat_map references_of_line body.now) }
{
    for line in body {
        add_line(references, line)?;
    }
    Ok(())
}

fn add_recipe<'src>(
    references: &mut References<'src>,
    recipe: &Recipe<'src, UnresolvedDependency<'src>>,
) -> Result<(), AllocError>
    ensures { OnOk result (references.new.list.items ≡ references.old.list.items ++ references_of_recipe recipe.now) }
{
    add_attributes(references, &recipe.attributes)?;
    add_parameters(references, recipe.parameters.as_slice())?;
    add_dependencies(references, recipe.priors.as_slice())?;
    add_dependencies(references, recipe.subsequents.as_slice())?;
    add_body(references, recipe.body.as_slice())
}

fn add_set<'src>(references: &mut References<'src>, set: &Set<'src>) -> Result<(), AllocError>
    ensures { OnOk result (references.new.list.items ≡ references.old.list.items ++ references_of_set set.now) }
{
    match &set.value {
        Setting::DotenvCommand(expression)
        | Setting::DotenvFilename(expression)
        | Setting::DotenvPath(expression)
        | Setting::Tempdir(expression)
        | Setting::WorkingDirectory(expression) => references.add(expression),
        Setting::ScriptInterpreter(interpreter)
        | Setting::Shell(interpreter)
        | Setting::WindowsShell(interpreter) => add_interpreter(references, interpreter),
        Setting::Truth(_, _) | Setting::Indentation(_) | Setting::MinimumVersion(_) => Ok(()),
    }
}

/// All calls and variables of the recipe: of its attributes, its parameters' defaults and what their
/// options stand for, its dependencies' arguments, those after the body too, and its body. Refused
/// only where memory runs out.
pub fn recipe_references<'src>(
    alloc: Global,
    recipe: &Recipe<'src, UnresolvedDependency<'src>>,
) -> Result<References<'src>, AllocError>
    ensures { IfOk result (λ r. r.list.items ≡ references_of_recipe recipe.now) }
{
    let mut references = References::new(alloc);
    add_recipe(&mut references, recipe)?;
    Ok(references)
}

/// All calls and variables of the setting's value. Refused only where memory runs out.
pub fn set_references<'src>(alloc: Global, set: &Set<'src>) -> Result<References<'src>, AllocError>
    ensures { IfOk result (λ r. r.list.items ≡ references_of_set set.now) }
{
    let mut references = References::new(alloc);
    add_set(&mut references, set)?;
    Ok(references)
}
