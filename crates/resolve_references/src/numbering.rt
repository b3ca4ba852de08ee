//! Numbers for the variables of items, in place.
ghost use Rattle.std.specs.Prelude.{◌≡◌, ◌∷◌, ◌++◌, ℕ, [], List, None, Some, IfOk, OnOk, if◌then◌else◌, map};
ghost use Rattle.std.specs.List.{All, flat_map};
ghost use Rattle.std.specs.Option.{option_map};
ghost use Rattle.std.specs.Str.{bytes_eq};
ghost use Rattle.just_text.specs.Tokens.{lexeme};
ghost use Rattle.tree_expressions.specs.Shape.{shape_of};
ghost use Rattle.tree_attributes.specs.Settings.{interpreter_shape, value_shape};
ghost use Rattle.tree_attributes.specs.Sets.Sets.{items_of, shapes_in};
ghost use Rattle.tree_items.specs.Contexts.{named_number, number_in, parameter_number};
ghost use Rattle.tree_items.specs.Files.{item_shape};
ghost use Rattle.tree_items.specs.Lines.{piece_of, pieces_of};
ghost use Rattle.tree_items.specs.Recipes.{argument_shape, body_shape, dependency_shape, dependency_shapes, parameter_shape, parameter_shapes, recipe_shape};
ghost use Rattle.resolve_references.specs.Numbered.{IsNumberedItem, IsSameRecipe, IsSameSetting, bare_parameter, bare_parameters, seen_attributes};
ghost use Rattle.resolve_references.specs.Said.{SayTheSame, said_by, said_of};
ghost use Rattle.resolve_references.specs.Seen.{AreNumberedBy, HasNumbers, HaveNumbers, StandsFor, seeing, seeing_if_there, seen_in, seen_in_attributes, seen_in_body, seen_in_dependencies, seen_in_dependency, seen_in_fragment, seen_in_interpreter, seen_in_line, seen_in_parameters, seen_in_recipe, seen_in_setting};

use std::alloc::{AllocError, Global};
use tree_attributes::{AttributeSet, Interpreter, Setting};
use tree_expressions::Expression;
use tree_items::{
    Assignment, DependencyArgument, ExpressionContext, Fragment, FunctionDefinition,
    FunctionParameter, Item, Line, Parameter, Recipe, Set, UnresolvedDependency,
    resolve_attributes, resolve_variables,
};

/// What an expression sees: the names of its parameters, and those of its module.
#[derive(Clone, Copy)]
struct Names<'a, 'src> {
    parameters: &'a ExpressionContext<'src>,
    bindings: &'a ExpressionContext<'src>,
}

fn number_expression(expression: &mut Expression, names: &Names)
    ensures shape { shape_of expression.new ≡ shape_of expression.old }
    ensures said { SayTheSame (λ seen. seeing seen expression.old ∷ []) (λ seen. seeing seen expression.new ∷ []) }
    ensures numbers { AreNumberedBy names.now.parameters.now names.now.bindings.now (λ seen. seeing seen expression.new ∷ []) }
{
    resolve_variables(expression, names.parameters, names.bindings);
}

fn number_if_there(expression: &mut Option<Expression>, names: &Names)
    ensures shape { option_map shape_of expression.new ≡ option_map shape_of expression.old }
    ensures said { SayTheSame (λ seen. seeing_if_there seen expression.old) (λ seen. seeing_if_there seen expression.new) }
    ensures numbers { AreNumberedBy names.now.parameters.now names.now.bindings.now (λ seen. seeing_if_there seen expression.new) }
{
    if let Some(expression) = expression {
        number_expression(expression, names);
    }
}

fn number_row(expressions: &mut Vec<Expression>, names: &Names)
    ensures shapes { map shape_of expressions.new.items ≡ map shape_of expressions.old.items }
    ensures said { SayTheSame (λ seen. map (seeing seen) expressions.old.items) (λ seen. map (seeing seen) expressions.new.items) }
    ensures numbers { AreNumberedBy names.now.parameters.now names.now.bindings.now (λ seen. map (seeing seen) expressions.new.items) }
{
    for index in 0..expressions.len() {
        number_expression(&mut expressions[index], names);
    }
}

fn number_interpreter<'src>(interpreter: &mut Interpreter<Expression<'src>>, names: &Names)
    ensures shape { interpreter_shape interpreter.new ≡ interpreter_shape interpreter.old }
    ensures said { SayTheSame (λ seen. seen_in_interpreter seen interpreter.old) (λ seen. seen_in_interpreter seen interpreter.new) }
    ensures numbers { AreNumberedBy names.now.parameters.now names.now.bindings.now (λ seen. seen_in_interpreter seen interpreter.new) }
{
    number_expression(&mut interpreter.command, names);
    number_row(&mut interpreter.arguments, names);
}

fn number_fragment(fragment: &mut Fragment, names: &Names)
    ensures shape { piece_of fragment.new ≡ piece_of fragment.old }
    ensures said { SayTheSame (λ seen. seen_in_fragment seen fragment.old) (λ seen. seen_in_fragment seen fragment.new) }
    ensures numbers { AreNumberedBy names.now.parameters.now names.now.bindings.now (λ seen. seen_in_fragment seen fragment.new) }
{
    if let Fragment::Interpolation { expression } = fragment {
        number_expression(expression, names);
    }
}

fn number_line(line: &mut Line, names: &Names)
    ensures shape { pieces_of line.new ≡ pieces_of line.old }
    ensures said { SayTheSame (λ seen. seen_in_line seen line.old) (λ seen. seen_in_line seen line.new) }
    ensures numbers { AreNumberedBy names.now.parameters.now names.now.bindings.now (λ seen. seen_in_line seen line.new) }
{
    for index in 0..line.fragments.len() {
        number_fragment(&mut line.fragments[index], names);
    }
}

fn number_body(body: &mut Vec<Line>, names: &Names)
    ensures shape { body_shape body.new.items ≡ body_shape body.old.items }
    ensures said { SayTheSame (λ seen. seen_in_body seen body.old.items) (λ seen. seen_in_body seen body.new.items) }
    ensures numbers { AreNumberedBy names.now.parameters.now names.now.bindings.now (λ seen. seen_in_body seen body.new.items) }
{
    for index in 0..body.len() {
        number_line(&mut body[index], names);
    }
}

fn number_argument(argument: &mut DependencyArgument, names: &Names)
    ensures shape { argument_shape argument.new ≡ argument_shape argument.old }
    ensures said { SayTheSame (λ seen. seeing seen argument.old.expression ∷ []) (λ seen. seeing seen argument.new.expression ∷ []) }
    ensures numbers { AreNumberedBy names.now.parameters.now names.now.bindings.now (λ seen. seeing seen argument.new.expression ∷ []) }
{
    number_expression(&mut argument.expression, names);
}

fn number_dependency(dependency: &mut UnresolvedDependency, names: &Names)
    ensures shape { dependency_shape dependency.new ≡ dependency_shape dependency.old }
    ensures said { SayTheSame (λ seen. seen_in_dependency seen dependency.old) (λ seen. seen_in_dependency seen dependency.new) }
    ensures numbers { AreNumberedBy names.now.parameters.now names.now.bindings.now (λ seen. seen_in_dependency seen dependency.new) }
{
    for index in 0..dependency.arguments.len() {
        number_argument(&mut dependency.arguments[index], names);
    }
}

fn number_dependencies(dependencies: &mut Vec<UnresolvedDependency>, names: &Names)
    ensures shapes { dependency_shapes dependencies.new.items ≡ dependency_shapes dependencies.old.items }
    ensures said { SayTheSame (λ seen. seen_in_dependencies seen dependencies.old.items) (λ seen. seen_in_dependencies seen dependencies.new.items) }
    ensures numbers { AreNumberedBy names.now.parameters.now names.now.bindings.now (λ seen. seen_in_dependencies seen dependencies.new.items) }
{
    for index in 0..dependencies.len() {
        number_dependency(&mut dependencies[index], names);
    }
}

/// The default and what the option stands for.
fn number_parameter(parameter: &mut Parameter, names: &Names)
    ensures shape { parameter_shape parameter.new ≡ parameter_shape parameter.old }
    ensures bare { bare_parameter parameter.new ≡ bare_parameter parameter.old }
    ensures said { SayTheSame (λ seen. seeing_if_there seen parameter.old.default ++ seeing_if_there seen parameter.old.value) (λ seen. seeing_if_there seen parameter.new.default ++ seeing_if_there seen parameter.new.value) }
    ensures numbers { AreNumberedBy names.now.parameters.now names.now.bindings.now (λ seen. seeing_if_there seen parameter.new.default ++ seeing_if_there seen parameter.new.value) }
{
    number_if_there(&mut parameter.default, names);
    number_if_there(&mut parameter.value, names);
}

/// Numbers what belongs to a parameter, which sees the earlier parameters, and puts its name among
/// these.
fn number_next<'src>(
    parameter: &mut Parameter<'src>,
    earlier: &mut ExpressionContext<'src>,
    bindings: &ExpressionContext<'src>,
) -> Result<(), AllocError>
    ensures shape { parameter_shape parameter.new ≡ parameter_shape parameter.old }
    ensures bare { bare_parameter parameter.new ≡ bare_parameter parameter.old }
    ensures said { SayTheSame (λ seen. seeing_if_there seen parameter.old.default ++ seeing_if_there seen parameter.old.value) (λ seen. seeing_if_there seen parameter.new.default ++ seeing_if_there seen parameter.new.value) }
    ensures numbers { AreNumberedBy earlier.old bindings.now (λ seen. seeing_if_there seen parameter.new.default ++ seeing_if_there seen parameter.new.value) }
    ensures named { OnOk result ((other : List ℕ) → number_in earlier.new other ≡ (if bytes_eq (lexeme parameter.new.name.token) other then Some parameter.new.number else number_in earlier.old other)) }
{
    number_parameter(
        parameter,
        &Names {
            parameters: &*earlier,
            bindings,
        },
    );
    earlier.set(parameter.name.lexeme(), parameter.number)
}

/// Numbers what belongs to each parameter, which sees the earlier parameters alone, and answers the
/// names of all.
fn number_parameters<'src>(
    alloc: Global,
    parameters: &mut Vec<Parameter<'src>>,
    bindings: &ExpressionContext<'src>,
) -> Result<ExpressionContext<'src>, AllocError>
    ensures shapes { parameter_shapes parameters.new.items ≡ parameter_shapes parameters.old.items }
    ensures bare { bare_parameters parameters.new.items ≡ bare_parameters parameters.old.items }
    ensures said { said_by (seen_in_parameters [] parameters.new.items) ≡ said_by (seen_in_parameters [] parameters.old.items) }
    ensures names { IfOk result (λ context. StandsFor context (map parameter_number parameters.new.items)) }
    ensures numbers { OnOk result (All (HasNumbers (number_in bindings.now)) (seen_in_parameters [] parameters.new.items)) }
{
    let mut earlier = ExpressionContext::new(alloc);
    for index in 0..parameters.len() {
        number_next(&mut parameters[index], &mut earlier, bindings)?;
    }
    Ok(earlier)
}

/// The attributes, of which an `env` sees no parameter.
fn number_attributes<'src>(
    alloc: Global,
    attributes: &mut AttributeSet<'src>,
    names: &Names<'_, 'src>,
)
    ensures same { seen_attributes (items_of attributes.new) ≡ seen_attributes (items_of attributes.old) }
    ensures shapes { shapes_in attributes.new ≡ shapes_in attributes.old }
    ensures said { SayTheSame (λ seen. seen_in_attributes seen (items_of attributes.old)) (λ seen. seen_in_attributes seen (items_of attributes.new)) }
    ensures numbers { AreNumberedBy names.now.parameters.now names.now.bindings.now (λ seen. seen_in_attributes seen (items_of attributes.new)) }
{
    let none = ExpressionContext::new(alloc);
    resolve_attributes(attributes, names.parameters, &none, names.bindings);
}

/// What stands after the parameters: attributes, dependencies and the body.
fn number_rest<'src>(
    alloc: Global,
    recipe: &mut Recipe<'src, UnresolvedDependency<'src>>,
    names: &Names<'_, 'src>,
)
    ensures same { IsSameRecipe recipe.old recipe.new }
    ensures kept { recipe.new.parameters ≡ recipe.old.parameters }
    ensures attributes { shapes_in recipe.new.attributes ≡ shapes_in recipe.old.attributes }
    ensures shape { recipe_shape recipe.new ≡ recipe_shape recipe.old }
    ensures said_front { SayTheSame (λ seen. seen_in_attributes seen (items_of recipe.old.attributes)) (λ seen. seen_in_attributes seen (items_of recipe.new.attributes)) }
    ensures said_priors { SayTheSame (λ seen. seen_in_dependencies seen recipe.old.priors.items) (λ seen. seen_in_dependencies seen recipe.new.priors.items) }
    ensures said_subsequents { SayTheSame (λ seen. seen_in_dependencies seen recipe.old.subsequents.items) (λ seen. seen_in_dependencies seen recipe.new.subsequents.items) }
    ensures said_body { SayTheSame (λ seen. seen_in_body seen recipe.old.body.items) (λ seen. seen_in_body seen recipe.new.body.items) }
    ensures front { AreNumberedBy names.now.parameters.now names.now.bindings.now (λ seen. seen_in_attributes seen (items_of recipe.new.attributes)) }
    ensures priors { AreNumberedBy names.now.parameters.now names.now.bindings.now (λ seen. seen_in_dependencies seen recipe.new.priors.items) }
    ensures subsequents { AreNumberedBy names.now.parameters.now names.now.bindings.now (λ seen. seen_in_dependencies seen recipe.new.subsequents.items) }
    ensures body { AreNumberedBy names.now.parameters.now names.now.bindings.now (λ seen. seen_in_body seen recipe.new.body.items) }
{
    number_dependencies(&mut recipe.priors, names);
    number_dependencies(&mut recipe.subsequents, names);
    number_body(&mut recipe.body, names);
    number_attributes(alloc, &mut recipe.attributes, names);
}

fn number_recipe<'src>(
    alloc: Global,
    recipe: &mut Recipe<'src, UnresolvedDependency<'src>>,
    bindings: &ExpressionContext<'src>,
) -> Result<(), AllocError>
    ensures same { IsSameRecipe recipe.old recipe.new }
    ensures attributes { shapes_in recipe.new.attributes ≡ shapes_in recipe.old.attributes }
    ensures shape { recipe_shape recipe.new ≡ recipe_shape recipe.old }
    ensures said { said_by (seen_in_recipe recipe.new) ≡ said_by (seen_in_recipe recipe.old) }
    ensures numbers { OnOk result (All (HasNumbers (number_in bindings.now)) (seen_in_recipe recipe.new)) }
{
    let parameters = number_parameters(alloc, &mut recipe.parameters, bindings)?;
    number_rest(
        alloc,
        recipe,
        &Names {
            parameters: &parameters,
            bindings,
        },
    );
    Ok(())
}

/// The names of a function's parameters.
fn function_names<'src>(
    alloc: Global,
    parameters: &[FunctionParameter<'src>],
) -> Result<ExpressionContext<'src>, AllocError>
    ensures { IfOk result (λ context. StandsFor context (map named_number parameters.now)) }
{
    let mut names = ExpressionContext::new(alloc);
    for parameter in parameters {
        names.set(parameter.name().lexeme(), parameter.number())?;
    }
    Ok(names)
}

fn number_function<'src>(
    alloc: Global,
    function: &mut FunctionDefinition<'src>,
    bindings: &ExpressionContext<'src>,
) -> Result<(), AllocError>
    ensures same { function.new ≡ record function.old { body = function.new.body } }
    ensures shape { shape_of function.new.body ≡ shape_of function.old.body }
    ensures said { said_of function.new.body ≡ said_of function.old.body }
    ensures numbers { OnOk result (HasNumbers (number_in bindings.now) (seeing (map named_number function.new.parameters.items) function.new.body)) }
{
    let parameters = function_names(alloc, function.parameters.as_slice())?;
    resolve_variables(&mut function.body, &parameters, bindings);
    Ok(())
}

/// A variable's right side, which sees no parameter.
fn number_assignment<'src>(
    alloc: Global,
    assignment: &mut Assignment<'src>,
    bindings: &ExpressionContext<'src>,
)
    ensures same { assignment.new ≡ record assignment.old { value = assignment.new.value } }
    ensures shape { shape_of assignment.new.value ≡ shape_of assignment.old.value }
    ensures said { said_of assignment.new.value ≡ said_of assignment.old.value }
    ensures numbers { HasNumbers (number_in bindings.now) (seeing [] assignment.new.value) }
{
    let none = ExpressionContext::new(alloc);
    resolve_variables(&mut assignment.value, &none, bindings);
}

fn number_setting(setting: &mut Setting, names: &Names)
    ensures same { IsSameSetting setting.old setting.new }
    ensures shape { value_shape setting.new ≡ value_shape setting.old }
    ensures said { said_by (seen_in_setting setting.new) ≡ said_by (seen_in_setting setting.old) }
    ensures numbers { StandsFor names.now.parameters.now [] → All (HasNumbers (number_in names.now.bindings.now)) (seen_in_setting setting.new) }
{
    match setting {
        Setting::DotenvCommand(expression) => number_expression(expression, names),
        Setting::DotenvFilename(expression) => number_expression(expression, names),
        Setting::DotenvPath(expression) => number_expression(expression, names),
        Setting::Tempdir(expression) => number_expression(expression, names),
        Setting::WorkingDirectory(expression) => number_expression(expression, names),
        Setting::ScriptInterpreter(interpreter) => number_interpreter(interpreter, names),
        Setting::Shell(interpreter) => number_interpreter(interpreter, names),
        Setting::WindowsShell(interpreter) => number_interpreter(interpreter, names),
        Setting::Truth(_, _) | Setting::Indentation(_) | Setting::MinimumVersion(_) => {}
    }
}

/// A setting's value, which sees no parameter.
fn number_set<'src>(alloc: Global, set: &mut Set<'src>, bindings: &ExpressionContext<'src>)
    ensures same { set.new ≡ record set.old { value = set.new.value } }
    ensures setting { IsSameSetting set.old.value set.new.value }
    ensures shape { value_shape set.new.value ≡ value_shape set.old.value }
    ensures said { said_by (seen_in_setting set.new.value) ≡ said_by (seen_in_setting set.old.value) }
    ensures numbers { All (HasNumbers (number_in bindings.now)) (seen_in_setting set.new.value) }
{
    let none = ExpressionContext::new(alloc);
    let names = Names {
        parameters: &none,
        bindings,
    };
    number_setting(&mut set.value, &names);
}

/// Gives each variable of the item the number of what its name stands for there, or none where it
/// stands for nothing. Bodies, dependencies and attributes of a recipe see its parameters, but `env`
/// none of them; what belongs to a parameter sees the earlier ones; a function's body sees its
/// parameters; all see the bindings after these. Refused only where memory is; some variables may
/// have their numbers then.
pub fn number_item<'src>(
    alloc: Global,
    item: &mut Item<'src>,
    bindings: &ExpressionContext<'src>,
) -> Result<(), AllocError>
    ensures numbered { IsNumberedItem item.old item.new }
    ensures shape { item_shape item.new ≡ item_shape item.old }
    ensures said { said_by (seen_in item.new) ≡ said_by (seen_in item.old) }
    ensures numbers { OnOk result (HaveNumbers (number_in bindings.now) item.new) }
{
    match item {
        Item::Assignment(assignment) => {
            number_assignment(alloc, assignment, bindings);
            Ok(())
        }
        Item::Function(function) => number_function(alloc, function, bindings),
        Item::Recipe(recipe) => number_recipe(alloc, recipe, bindings),
        Item::Set(set) => {
            number_set(alloc, set, bindings);
            Ok(())
        }
        _ => Ok(()),
    }
}
