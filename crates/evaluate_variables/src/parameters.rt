//! What a recipe's parameters stand for.
ghost use Rattle.std.specs.Prelude.{◌≡◌, ◌++◌, ◌∷◌, ◌||◌, [], Bool, IfErr, IfOk, OnOk, Some, false, if◌then◌else◌, map, true, ℕ};
ghost use Rattle.std.specs.Fn.{AlwaysReturns};
ghost use Rattle.std.specs.Option.{option_to_list};
ghost use Rattle.std.specs.String.{string_bytes};
ghost use Rattle.just_text.specs.Tokens.{lexeme};
ghost use Rattle.tree_attributes.specs.Sets.Sets.{items_of};
ghost use Rattle.tree_items.specs.declared.recipe.Parameter as declared;
ghost use Rattle.just_host.specs.Kinds.{AsksQuestions};
ghost use Rattle.just_value.specs.Frames.{ByNumber, Rebinds, value_binding};
ghost use Rattle.just_value.specs.Values.{joined};
ghost use Rattle.evaluate_context.specs.Refusals.{fault_of, seen, seen_as};
ghost use Rattle.evaluate_expressions.specs.Situations.{reading_at, stage_at};
ghost use Rattle.meaning_dialogues.specs.Calls.{HasValues, empty};
ghost use Rattle.meaning_dialogues.specs.Dialogue.{Evaluates};
ghost use Rattle.meaning_dialogues.specs.Faults as faults;
ghost use Rattle.meaning_dialogues.specs.Terms.{term_of};
ghost use Rattle.meaning_evaluation.specs.Parameters.Bindings.{attribute_dialogue, env_term, env_terms, pair_dialogue};
ghost use Rattle.meaning_evaluation.specs.Stages.Parameters.{Formal, default_dialogue, env_dialogue, formal_of, given_dialogue, is_star, parameter_dialogue, positional_words};
ghost use Rattle.meaning_evaluation.specs.Stages.Parameters as meaning;
ghost use Rattle.evaluate_variables.specs.Known.{IsProper, ParametersKnown};
ghost use Rattle.evaluate_variables.specs.Given.{AreCounted, BoundRecipe, GivenParameters, HasRowsOf, lists_of, passes_in, reading_for, stage_for, times_over};

use evaluate_context::{Error, ExecutionContext, Settings};
use evaluate_expressions::{Evaluator, internal};
use just_host::{Host, Pair, Recorded};
use just_text::{Name, Text};
use just_value::{Scope, StringContext, Value};
use std::alloc::{AllocError, Global};
use tree_attributes::{Attribute, AttributeItem, AttributeKind, AttributeSet};
use tree_expressions::Expression;
use tree_items::{Parameter, ParameterKind, Recipe};

/// What a recipe is given beside the frame of its parameters.
#[derive(Drop)]
pub struct BoundParameters {
    /// The parameters' values as words, where the recipe's commands get them.
    pub positional: Vec<String>,
    /// What `env` attributes give to commands. Of pairs of one name the last counts.
    pub env: Vec<Pair>,
}

/// Whether the commands of a recipe with these attributes get the parameters' values as words.
pub fn passes_words(settings: &Settings, attributes: &AttributeSet) -> bool
    ensures { result ≡ passes_in settings.now attributes.now }
{
    settings.positional_arguments || attributes.contains(AttributeKind::PositionalArguments)
}

/// Where parameters are evaluated.
#[derive(Clone, Copy)]
struct Site<'a, 'src> {
    context: &'a ExecutionContext<'a, 'src>,
    is_dependency: bool,
    /// Whether the recipe's commands get the parameters' values as words.
    passes_words: bool,
    recipe: Name<'src>,
}

impl<'a, 'src> Site<'a, 'src> {
    /// Evaluates in the frame so far.
    fn evaluator(&self, env: &'a [Pair], scope: &'a Scope<'a, 'src>) -> Evaluator<'a, 'src>
        ensures stage { stage_at result ≡ stage_for self.now env.entry.now scope.entry.now }
        ensures reading { reading_at result ≡ reading_for self.now scope.entry.now }
    {
        Evaluator::new(
            self.context,
            env,
            self.is_dependency,
            Some(self.recipe),
            scope,
        )
    }
}

/// The pair that an `env` attribute gives; none where its value is empty.
fn env_pair<'src, H: Host + Drop>(
    alloc: Global,
    host: &mut Recorded<H>,
    evaluator: &Evaluator<'_, 'src>,
    key: &Expression<'src>,
    value: &Expression<'src>,
    name: Name<'src>,
) -> Result<Option<Pair>, Error<'src>>
    ensures asks { AsksQuestions H.goes host.old host.new }
    ensures evaluates { Evaluates (reading_at evaluator.now) (pair_dialogue (stage_at evaluator.now) (term_of key.now) (term_of value.now)) host.old.entries host.new.entries (seen_as option_to_list result) }
{
    let context = StringContext::EnvKey(name.token);
    let key = evaluator.evaluate_string(alloc, host, key, context)?;
    let value = evaluator.evaluate_value(alloc, host, value)?;
    if value.is_empty() {
        return Ok(None);
    }
    let value = value.join(alloc)?;
    Ok(Some(Pair {
        name: Text::from_string(key),
        value: Text::from_string(value),
    }))
}

/// The pair that the attribute gives, if it is `env` and its value is not empty.
#[tactic(auto, using(meaning_evaluation::proofs::Parameters::Pairs::attribute_env, meaning_evaluation::proofs::Parameters::Pairs::attribute_other))]
fn attribute_pair<'src, H: Host + Drop>(
    alloc: Global,
    host: &mut Recorded<H>,
    site: &Site<'_, 'src>,
    env: &[Pair],
    scope: &Scope<'_, 'src>,
    item: &AttributeItem<'src>,
) -> Result<Option<Pair>, Error<'src>>
    ensures asks { AsksQuestions H.goes host.old host.new }
    ensures evaluates { Evaluates (reading_for site.now scope.now) (attribute_dialogue (stage_for site.now env.now scope.now) (env_term item.now.attribute)) host.old.entries host.new.entries (seen_as option_to_list result) }
{
    let Attribute::Env { key, value } = &item.attribute else {
        return Ok(None);
    };
    let evaluator = site.evaluator(env, scope);
    env_pair(alloc, host, &evaluator, key, value, item.name)
}

/// The pairs of all `env` attributes in order. Each is evaluated with the pairs before it.
#[tactic(auto, using(meaning_evaluation::proofs::Parameters::Pairs::pairs_first, meaning_evaluation::proofs::Parameters::Pairs::pairs_more, meaning_evaluation::proofs::Parameters::Pairs::pairs_passed, meaning_evaluation::proofs::Parameters::Pairs::pairs_stop, meaning_evaluation::proofs::Parameters::Pairs::pairs_end))]
fn attribute_pairs<'src, H: Host + Drop, D>(
    alloc: Global,
    host: &mut Recorded<H>,
    site: &Site<'_, 'src>,
    scope: &Scope<'_, 'src>,
    recipe: &Recipe<'src, D>,
) -> Result<Vec<Pair>, Error<'src>>
    ensures asks { AsksQuestions H.goes host.old host.new }
    ensures evaluates { Evaluates (reading_for site.now scope.now) (env_dialogue (λ pairs. stage_for site.now pairs scope.now) [] (env_terms (items_of recipe.now.attributes))) host.old.entries host.new.entries (seen_as (λ env. env.items) result) }
{
    let mut env = Vec::new(alloc);
    for item in recipe.attributes.iter() {
        if let Some(pair) = attribute_pair(alloc, host, site, env.as_slice(), scope, item)? {
            env.push(pair)?;
        }
    }
    Ok(env)
}

/// The value so often, one after the other.
#[tactic(auto, using(crate::proofs::Given::times_more))]
fn repeated(alloc: Global, value: &Value, times: usize) -> Result<Value, AllocError>
    ensures { IfOk result (λ v. v ≡ times_over times value.now) }
{
    let mut list = Value::new(alloc);
    for _ in 0..times {
        let copy = value.clone()?;
        list.append(copy)?;
    }
    Ok(list)
}

/// Whether the parameter may stand for no element.
fn takes_none(parameter: &Parameter) -> bool
    ensures { result ≡ (is_star parameter.now.kind || parameter.now.flag) }
{
    match parameter.kind {
        ParameterKind::Star => true,
        ParameterKind::Plus | ParameterKind::Singular => parameter.flag,
    }
}

/// The value of a parameter that is given no element: its default, or the empty list where it takes
/// any number.
fn default_value<'src, H: Host + Drop>(
    alloc: Global,
    host: &mut Recorded<H>,
    evaluator: &Evaluator<'_, 'src>,
    is_dependency: bool,
    parameter: &Parameter<'src>,
    recipe: Name<'src>,
) -> Result<Value, Error<'src>>
    ensures asks { AsksQuestions H.goes host.old host.new }
    ensures evaluates { Evaluates (reading_at evaluator.now) (default_dialogue (stage_at evaluator.now) is_dependency (lexeme recipe.entry.token) (formal_of parameter.now) (formal_of parameter.now).default) host.old.entries host.new.entries (seen result) }
{
    if let Some(default) = &parameter.default {
        return evaluator.evaluate_value(alloc, host, default);
    }
    if takes_none(parameter) {
        return Ok(Value::new(alloc));
    }
    Err(Error::EmptyListArgument {
        recipe,
        parameter: parameter.name,
    })
}

/// The value of a parameter that is given elements: outside a dependency the value of its option,
/// once for each element, where it has one; else the elements.
fn given_value<'src, H: Host + Drop>(
    alloc: Global,
    host: &mut Recorded<H>,
    evaluator: &Evaluator<'_, 'src>,
    is_dependency: bool,
    parameter: &Parameter<'src>,
    group: &Value,
) -> Result<Value, Error<'src>>
    ensures asks { AsksQuestions H.goes host.old host.new }
    ensures evaluates { Evaluates (reading_at evaluator.now) (given_dialogue (stage_at evaluator.now) is_dependency [] group.now (formal_of parameter.now).value is_dependency) host.old.entries host.new.entries (seen result) }
{
    if is_dependency {
        return Ok(group.clone()?);
    }
    let Some(value) = &parameter.value else {
        return Ok(group.clone()?);
    };
    let value = evaluator.evaluate_value(alloc, host, value)?;
    Ok(repeated(alloc, &value, group.len())?)
}

/// The parameter's value, by its group of elements: the default where there is none; outside a
/// dependency the value of its option, once for each element; else the group.
fn parameter_value<'src, H: Host + Drop>(
    alloc: Global,
    host: &mut Recorded<H>,
    site: &Site<'_, 'src>,
    env: &[Pair],
    scope: &Scope<'_, 'src>,
    parameter: &Parameter<'src>,
    group: &Value,
) -> Result<Value, Error<'src>>
    ensures asks { AsksQuestions H.goes host.old host.new }
    ensures evaluates { Evaluates (reading_for site.now scope.now) (parameter_dialogue (stage_for site.now env.now scope.now) site.now.is_dependency (lexeme site.now.recipe.token) (formal_of parameter.now) group.now) host.old.entries host.new.entries (seen result) }
{
    let evaluator = site.evaluator(env, scope);
    let is_dependency = site.is_dependency;
    if group.is_empty() {
        return default_value(
            alloc,
            host,
            &evaluator,
            is_dependency,
            parameter,
            site.recipe,
        );
    }
    given_value(alloc, host, &evaluator, is_dependency, parameter, group)
}

/// Puts the value's elements, or its join, after the words.
fn push_positional(
    alloc: Global,
    positional: &mut Vec<String>,
    value: &Value,
    each: bool,
) -> Result<(), AllocError>
    ensures { OnOk result (map string_bytes positional.new.items ≡ map string_bytes positional.old.items ++ (if each then value.now else joined value.now ∷ [])) }
{
    if !each {
        positional.push(value.join(alloc)?)?;
        return Ok(());
    }
    for element in value.elements() {
        positional.push(element.clone()?)?;
    }
    Ok(())
}

/// What the name is bound to: the value under `lists`, else its join, which of one element is that.
fn bound_value(alloc: Global, lists: bool, value: Value) -> Result<Value, AllocError>
    ensures { IfOk result (λ v. v ≡ meaning.bound_value lists value) }
{
    if lists || value.len() == 1 {
        return Ok(value);
    }
    Value::from_string(alloc, value.join(alloc)?)
}

/// Refuses a value whose number of elements the check refuses.
fn check_count<'src, F: Fn(&Parameter, usize) -> bool>(
    recipe: Name<'src>,
    parameter: &Parameter<'src>,
    found: usize,
    check: &F,
) -> Result<(), Error<'src>>
    requires { F.IsAlwaysCallable check.now }
    ensures passed { IfOk result (λ _. (may : declared.Parameter → ℕ → Bool) → AlwaysReturns F.Fn (λ a r. r ≡ may a.0.now a.1.0) check.now → may parameter.now found ≡ true) }
    ensures refused { IfErr result (λ _. (may : declared.Parameter → ℕ → Bool) → AlwaysReturns F.Fn (λ a r. r ≡ may a.0.now a.1.0) check.now → may parameter.now found ≡ false) }
    ensures fault { IfErr result (λ error. fault_of error ≡ faults.value_count (lexeme recipe.entry.token) (lexeme parameter.now.name.token) found) }
{
    if check(parameter, found) {
        return Ok(());
    }
    Err(Error::ValueCount {
        recipe,
        parameter: parameter.name,
        found,
    })
}

/// Puts the words that the parameter gives after the others, where commands get words.
fn push_words(
    alloc: Global,
    positional: &mut Vec<String>,
    passes_words: bool,
    parameter: &Parameter,
    value: &Value,
) -> Result<(), AllocError>
    ensures { OnOk result (map string_bytes positional.new.items ≡ map string_bytes positional.old.items ++ (if passes_words then positional_words (formal_of parameter.now) value.now else [])) }
{
    if !passes_words {
        return Ok(());
    }
    let each = parameter.kind.is_variadic() || parameter.multiple;
    push_positional(alloc, positional, value, each)
}

/// Binds the value in the frame, and puts it after the words, if there are any.
fn bind_parameter<'src>(
    alloc: Global,
    scope: &mut Scope<'_, 'src>,
    positional: &mut Vec<String>,
    parameter: &Parameter<'src>,
    site: &Site<'_, 'src>,
    value: Value,
) -> Result<(), AllocError>
    ensures around { scope.new.outer ≡ scope.old.outer }
    ensures words { OnOk result (map string_bytes positional.new.items ≡ map string_bytes positional.old.items ++ (if site.now.passes_words then positional_words (formal_of parameter.now) value else [])) }
    ensures bound { OnOk result (Rebinds scope.old.own (value_binding parameter.now.name parameter.now.number parameter.now.export (meaning.bound_value (lists_of site.now) value)) scope.new.own) }
    ensures sorted { OnOk result (ByNumber scope.new.own) }
{
    push_words(alloc, positional, site.passes_words, parameter, &value)?;
    let lists = site.context.module.settings.lists;
    let value = bound_value(alloc, lists, value)?;
    scope.bind_value(parameter.name, parameter.number, parameter.export, value)
}

/// Binds the parameters in order, each in the frame of those before it.
fn bind_parameters<'src, H: Host + Drop, F: Fn(&Parameter, usize) -> bool>(
    alloc: Global,
    host: &mut Recorded<H>,
    site: &Site<'_, 'src>,
    env: &[Pair],
    scope: &mut Scope<'_, 'src>,
    parameters: &[Parameter<'src>],
    groups: &[Value],
    check: &F,
) -> Result<Vec<String>, Error<'src>>
    requires { F.IsAlwaysCallable check.now }
    ensures asks { AsksQuestions H.goes host.old host.new }
    ensures around { scope.new.outer ≡ scope.old.outer }
    ensures evaluates { (may : declared.Parameter → ℕ → Bool) (counts : Formal → ℕ → Bool) → AlwaysReturns F.Fn (λ a r. r ≡ may a.0.now a.1.0) check.now → AreCounted may counts parameters.now → HasValues scope.old.own empty → GivenParameters site.now env.now counts parameters.now groups.now scope.old host.old.entries host.new.entries scope.new result }
    ensures rows { IfOk result (λ _. HasValues scope.old.own empty → HasRowsOf parameters.now scope.new.own) }
{
    let mut positional = Vec::new(alloc);
    for (parameter, group) in parameters.iter().zip(groups) {
        let value = parameter_value(alloc, host, site, env, &*scope, parameter, group)?;
        check_count(site.recipe, parameter, value.len(), check)?;
        bind_parameter(alloc, scope, &mut positional, parameter, site, value)?;
    }
    Ok(positional)
}

/// Evaluates the recipe's `env` attributes, then binds its parameters by their groups of elements in
/// the scope's innermost frame, which is empty: each parameter sees those before it. The check says
/// whether a parameter may stand for so many elements.
///
/// Refused, beside what its expressions are refused for, as `Internal` where there are not as many
/// groups as parameters, as `EmptyListArgument` where a parameter that needs an element gets none,
/// and as `ValueCount` where the check refuses a parameter.
pub fn evaluate_parameters<'src, H: Host + Drop, D, F: Fn(&Parameter, usize) -> bool>(
    alloc: Global,
    host: &mut Recorded<H>,
    groups: &[Value],
    context: &ExecutionContext<'_, 'src>,
    is_dependency: bool,
    recipe: &Recipe<'src, D>,
    scope: &mut Scope<'_, 'src>,
    check: &F,
) -> Result<BoundParameters, Error<'src>>
    requires { F.IsAlwaysCallable check.now }
    ensures asks { AsksQuestions H.goes host.old host.new }
    ensures around { scope.new.outer ≡ scope.old.outer }
    ensures evaluates { (may : declared.Parameter → ℕ → Bool) (counts : Formal → ℕ → Bool) → AlwaysReturns F.Fn (λ a r. r ≡ may a.0.now a.1.0) check.now → AreCounted may counts recipe.now.parameters.items → HasValues scope.old.own empty → BoundRecipe context.now is_dependency recipe.now counts groups.now scope.old host.old.entries host.new.entries scope.new result }
    ensures rows { IfOk result (λ _. HasValues scope.old.own empty → HasRowsOf recipe.now.parameters.items scope.new.own) }
    ensures known { (may : declared.Parameter → ℕ → Bool) (counts : Formal → ℕ → Bool) → AlwaysReturns F.Fn (λ a r. r ≡ may a.0.now a.1.0) check.now → AreCounted may counts recipe.now.parameters.items → HasValues scope.old.own empty → ParametersKnown context.now recipe.now groups.now scope.old → IfErr result IsProper }
{
    bind_recipe(
        alloc,
        host,
        groups,
        context,
        is_dependency,
        recipe,
        scope,
        check,
    )
}

/// Evaluates the recipe's `env` attributes, then binds its parameters.
fn bind_recipe<'src, H: Host + Drop, D, F: Fn(&Parameter, usize) -> bool>(
    alloc: Global,
    host: &mut Recorded<H>,
    groups: &[Value],
    context: &ExecutionContext<'_, 'src>,
    is_dependency: bool,
    recipe: &Recipe<'src, D>,
    scope: &mut Scope<'_, 'src>,
    check: &F,
) -> Result<BoundParameters, Error<'src>>
    requires { F.IsAlwaysCallable check.now }
    ensures asks { AsksQuestions H.goes host.old host.new }
    ensures around { scope.new.outer ≡ scope.old.outer }
    ensures evaluates { (may : declared.Parameter → ℕ → Bool) (counts : Formal → ℕ → Bool) → AlwaysReturns F.Fn (λ a r. r ≡ may a.0.now a.1.0) check.now → AreCounted may counts recipe.now.parameters.items → HasValues scope.old.own empty → BoundRecipe context.now is_dependency recipe.now counts groups.now scope.old host.old.entries host.new.entries scope.new result }
    ensures rows { IfOk result (λ _. HasValues scope.old.own empty → HasRowsOf recipe.now.parameters.items scope.new.own) }
{
    let site = Site {
        context,
        is_dependency,
        passes_words: passes_words(context.module.settings, &recipe.attributes),
        recipe: recipe.name,
    };
    let env = attribute_pairs(alloc, host, &site, &*scope, recipe)?;
    if groups.len() != recipe.parameters.len() {
        return Err(internal(alloc, "arguments do not match parameter count"));
    }
    let positional = bind_parameters(
        alloc,
        host,
        &site,
        env.as_slice(),
        scope,
        &recipe.parameters,
        groups,
        check,
    )?;
    Ok(BoundParameters { positional, env })
}
