//! The rules on single items of a module.
ghost use Rattle.std.specs.Prelude.{◌≡◌, ◌<◌, ◌&&◌, ℕ, not, length, map, false, List, Some, None, OnOk, IfErr, IfSome, is_some, option_map, Contains};
ghost use Rattle.just_text.specs.declared.compile_error.CompileErrorKind.{CompileErrorKind};
ghost use Rattle.tree_attributes.specs.declared.attribute.AttributeKind.TheVariants.{Cache, Script};
ghost use Rattle.tree_attributes.specs.Sets.Sets.{shapes_in};
ghost use Rattle.tree_items.specs.declared.ast.ListFeature.{ListFeature};
ghost use Rattle.tree_items.specs.declared.ast.UnstableFeature.{UnstableFeature};
ghost use Rattle.tree_items.specs.Files.{item_shape, attributes_of};
ghost use Rattle.tree_items.specs.Lines.{first_piece, pieces_of};
ghost use Rattle.tree_items.specs.Recipes.{body_shape, recipe_shape};
ghost use Rattle.meaning_rules.specs.Worlds.Given.{World};
ghost use Rattle.meaning_rules.specs.Worlds.Sources.{enabled};
ghost use Rattle.meaning_rules.specs.Rules.{Rule, syntax, lists_needed, Excludes, UsesUnstable, begins_shebang, has};
ghost use Rattle.just_modules.specs.Lists.{lists_of};
ghost use Rattle.just_modules.specs.declared.truths.Truths.{Truths};
ghost use Rattle.just_modules.specs.ItemRules as spec;
ghost use Rattle.just_modules.specs.ItemRules.{BreaksBody, BreaksEnabled, BreaksFiles, BreaksIfRecipe, BreaksItem, BreaksItems, BreaksLine, BreaksPlace, BreaksRecipe, both_marks, goes_on, is_text, unstable_in};
ghost use Rattle.meaning_rules.specs.Told.{IsNamedBy, rule_of};

use crate::lists::{ListUse, list_use};
use crate::truths::Truths;
use just_text::{CompileErrorKind, Os, Token};
use modules_compilation::{Error, File};
use tree_attributes::{AttributeKind, AttributeSet};
use tree_items::{Fragment, Item, Line, Recipe, UnresolvedDependency, UnstableFeature};

/// A feature that may still change, and where it is used.
#[derive(Clone, Copy)]
struct UnstableUse<'src> {
    feature: UnstableFeature,
    token: Token<'src>,
}

/// Where the recipe with these attributes is said to be cached, if it is.
#[tactic(auto, using(crate::proofs::Enabled::same_name))]
fn cache_token<'src>(attributes: &AttributeSet<'src>) -> Option<Token<'src>>
    ensures { is_some result ≡ has Cache (shapes_in attributes.now) }
{
    match attributes.name(AttributeKind::Cache) {
        Some(name) => Some(name.token),
        None => None,
    }
}

/// The use of a feature that may still change, if the item is one.
fn unstable_use<'src>(item: &Item<'src>) -> Option<UnstableUse<'src>>
    ensures { option_map (λ used. used.feature) result ≡ unstable_in (item_shape item.now) }
{
    let (feature, token) = match item {
        Item::Function(function) => (UnstableFeature::DefinedFunctions, function.name.token),
        Item::Recipe(recipe) => match cache_token(&recipe.attributes) {
            Some(token) => (UnstableFeature::CachedRecipes, token),
            None => return None,
        },
        Item::Set(set) if set.name.lexeme() == "lists" => (UnstableFeature::Lists, set.name.token),
        _ => return None,
    };
    Some(UnstableUse { feature, token })
}

/// Whether the item is there under this operating system.
#[tactic(auto, using(crate::proofs::Enabled::same_enabled))]
fn is_enabled(item: &Item, os: Os) -> bool
    ensures { result ≡ enabled os (attributes_of (item_shape item.now)) }
{
    match item {
        Item::Alias(alias) => alias.attributes.is_enabled(os),
        Item::Assignment(assignment) => assignment.attributes.is_enabled(os),
        Item::Module(module) => module.attributes.is_enabled(os),
        Item::Recipe(recipe) => recipe.attributes.is_enabled(os),
        Item::Set(set) => set.attributes.is_enabled(os),
        _ => true,
    }
}

/// The text that a line begins with, if it does.
fn first_text<'src>(line: &Line<'src>) -> Option<Token<'src>>
    ensures { is_some result ≡ is_text (first_piece line.now) }
{
    match line.fragments.first() {
        Some(Fragment::Text { token }) => Some(*token),
        _ => None,
    }
}

/// Whether the body begins with `#!`.
fn has_shebang(body: &[Line]) -> bool
    ensures { result ≡ begins_shebang (body_shape body.now) }
{
    if body.is_empty() {
        return false;
    }
    body[0].is_shebang()
}

/// Whether the line has both the guard's mark, if that is one, and that of infallible lines.
fn has_both_marks(line: &Line, guards: bool) -> bool
    ensures { result ≡ (guards && both_marks (first_piece line.now)) }
{
    let sigils = line.sigils(true);
    guards && sigils.guard && sigils.infallible
}

/// Refuses a body line that begins with a space or a tab, or has both the guard's mark and that of
/// infallible lines.
fn check_line<'src>(line: &Line<'src>, guards: bool) -> Result<(), Error<'src>>
    ensures clear { OnOk result ((kind : CompileErrorKind) → BreaksLine guards (pieces_of line.now) kind → ⊥) }
    ensures broken { IfErr result (λ e. (kind : CompileErrorKind) × (rule_of e ≡ Some (syntax kind)) × BreaksLine guards (pieces_of line.now) kind) }
{
    let Some(token) = first_text(line) else {
        return Ok(());
    };
    if line.begins_with_space() {
        let refusal = token.error(CompileErrorKind::ExtraLeadingWhitespace);
        return Err(Error::Syntax(refusal));
    }
    if has_both_marks(line, guards) {
        let refusal = token.error(CompileErrorKind::GuardAndInfallible);
        return Err(Error::Syntax(refusal));
    }
    Ok(())
}

/// Whether the line at the place does not go on with the one before.
fn is_own_line(body: &[Line], place: usize) -> bool
    requires { place < length body.now }
    ensures { result ≡ not (goes_on (body_shape body.now) place) }
{
    if place == 0 {
        return true;
    }
    !body[place - 1].is_continuation()
}

/// Checks the line at the place, if it does not go on with the one before.
fn check_place<'src>(body: &[Line<'src>], place: usize, guards: bool) -> Result<(), Error<'src>>
    requires { place < length body.now }
    ensures clear { OnOk result ((kind : CompileErrorKind) → BreaksPlace guards (body_shape body.now) place kind → ⊥) }
    ensures broken { IfErr result (λ e. (kind : CompileErrorKind) × (rule_of e ≡ Some (syntax kind)) × BreaksPlace guards (body_shape body.now) place kind) }
{
    if !is_own_line(body, place) {
        return Ok(());
    }
    check_line(&body[place], guards)
}

/// Checks each line that does not go on with the one before.
fn check_body<'src>(body: &[Line<'src>], guards: bool) -> Result<(), Error<'src>>
    ensures clear { OnOk result ((place : ℕ) (kind : CompileErrorKind) → BreaksPlace guards (body_shape body.now) place kind → ⊥) }
    ensures broken { IfErr result (λ e. (place : ℕ) × (kind : CompileErrorKind) × (rule_of e ≡ Some (syntax kind)) × BreaksPlace guards (body_shape body.now) place kind) }
{
    for place in 0..body.len() {
        match check_place(body, place, guards) {
            Ok(()) => {}
            Err(refusal) => return Err(refusal),
        }
    }
    Ok(())
}

/// Whether there is an attribute of the kind.
#[tactic(auto, using(crate::proofs::Enabled::same_has))]
fn has(attributes: &AttributeSet, kind: AttributeKind) -> bool
    ensures { result ≡ has kind (shapes_in attributes.now) }
{
    attributes.contains(kind)
}

/// Whether there are attributes of both kinds.
fn has_both(attributes: &AttributeSet, one: AttributeKind, other: AttributeKind) -> bool
    ensures { result ≡ (has one (shapes_in attributes.now) && has other (shapes_in attributes.now)) }
{
    has(attributes, one) && has(attributes, other)
}

/// Whether the recipe is a script both by an attribute and by its body.
fn is_twice_script(recipe: &Recipe<'_, UnresolvedDependency<'_>>) -> bool
    ensures { result ≡ (has Script (shapes_in recipe.now.attributes) && begins_shebang (recipe_shape recipe.now).body) }
{
    has(&recipe.attributes, AttributeKind::Script) && has_shebang(recipe.body.as_slice())
}

/// Two things that a recipe has and that exclude one another.
#[derive(Clone, Copy)]
struct Conflict {
    one: &'static str,
    other: &'static str,
}

/// The first two things of a recipe that exclude one another.
fn first_conflict(recipe: &Recipe<'_, UnresolvedDependency<'_>>) -> Option<Conflict>
    ensures found { IfSome result (λ c. Excludes (shapes_in recipe.now.attributes) (recipe_shape recipe.now) c.one.now c.other.now) }
    ensures none { result ≡ None → (one other : List ℕ) → Excludes (shapes_in recipe.now.attributes) (recipe_shape recipe.now) one other → ⊥ }
{
    let attributes = &recipe.attributes;
    if has_both(
        attributes,
        AttributeKind::NoCd,
        AttributeKind::WorkingDirectory,
    ) {
        return Some(Conflict {
            one: "no-cd",
            other: "working-directory",
        });
    }
    if is_twice_script(recipe) {
        return Some(Conflict {
            one: "script",
            other: "#!",
        });
    }
    if has_both(
        attributes,
        AttributeKind::ExitMessage,
        AttributeKind::NoExitMessage,
    ) {
        return Some(Conflict {
            one: "exit-message",
            other: "no-exit-message",
        });
    }
    None
}

/// Whether the recipe is a script.
fn is_script(recipe: &Recipe<'_, UnresolvedDependency<'_>>, truths: &Truths) -> bool
    ensures { result ≡ spec.is_script truths.now (shapes_in recipe.now.attributes) (recipe_shape recipe.now) }
{
    truths.default_script
        || has(&recipe.attributes, AttributeKind::Script)
        || has_shebang(recipe.body.as_slice())
}

/// Refuses a recipe whose attributes, or whose attributes and body, exclude one another.
fn check_attributes<'src>(
    recipe: &Recipe<'src, UnresolvedDependency<'src>>,
) -> Result<(), Error<'src>>
    ensures clear { OnOk result ((one other : List ℕ) → Excludes (shapes_in recipe.now.attributes) (recipe_shape recipe.now) one other → ⊥) }
    ensures broken { IfErr result (λ e. (w : World) (truths : Truths) → IsNamedBy (BreaksRecipe w truths (shapes_in recipe.now.attributes) (recipe_shape recipe.now)) e) }
{
    match first_conflict(recipe) {
        Some(Conflict { one, other }) => Err(Error::AttributeConflict {
            recipe: recipe.name,
            one,
            other,
        }),
        None => Ok(()),
    }
}

/// Refuses a recipe that is to be cached, or has attributes that exclude one another.
fn check_header<'src>(recipe: &Recipe<'src, UnresolvedDependency<'src>>) -> Result<(), Error<'src>>
    ensures cache { OnOk result (has Cache (shapes_in recipe.now.attributes) ≡ false) }
    ensures clear { OnOk result ((one other : List ℕ) → Excludes (shapes_in recipe.now.attributes) (recipe_shape recipe.now) one other → ⊥) }
    ensures broken { IfErr result (λ e. (w : World) (truths : Truths) → IsNamedBy (BreaksRecipe w truths (shapes_in recipe.now.attributes) (recipe_shape recipe.now)) e) }
{
    if has(&recipe.attributes, AttributeKind::Cache) {
        return Err(Error::CacheLeftOut(recipe.name));
    }
    check_attributes(recipe)
}

/// Refuses a body line that breaks a rule, where the recipe is no script.
fn check_commands<'src>(
    recipe: &Recipe<'src, UnresolvedDependency<'src>>,
    truths: &Truths,
) -> Result<(), Error<'src>>
    ensures clear { OnOk result (spec.is_script truths.now (shapes_in recipe.now.attributes) (recipe_shape recipe.now) ≡ false → (w : World) (kind : CompileErrorKind) → BreaksBody w truths.now.guards (recipe_shape recipe.now) kind → ⊥) }
    ensures broken { IfErr result (λ e. (w : World) → IsNamedBy (BreaksRecipe w truths.now (shapes_in recipe.now.attributes) (recipe_shape recipe.now)) e) }
{
    if is_script(recipe, truths) {
        return Ok(());
    }
    check_body(recipe.body.as_slice(), truths.guards)
}

/// Refuses a recipe that is to be cached, has attributes that exclude one another, or a body line
/// that breaks a rule and is no script's.
fn check_recipe<'src>(
    recipe: &Recipe<'src, UnresolvedDependency<'src>>,
    truths: &Truths,
) -> Result<(), Error<'src>>
    ensures clear { OnOk result ((w : World) (rule : Rule) → BreaksRecipe w truths.now (shapes_in recipe.now.attributes) (recipe_shape recipe.now) rule → ⊥) }
    ensures broken { IfErr result (λ e. (w : World) → IsNamedBy (BreaksRecipe w truths.now (shapes_in recipe.now.attributes) (recipe_shape recipe.now)) e) }
{
    match check_commands(recipe, truths) {
        Ok(()) => check_header(recipe),
        Err(refusal) => Err(refusal),
    }
}

/// Refuses an item that uses a feature that may still change where that isn't asked for.
fn check_unstable<'src>(item: &Item<'src>, truths: &Truths) -> Result<(), Error<'src>>
    ensures clear { OnOk result (truths.now.unstable ≡ false → (feature : UnstableFeature) → UsesUnstable (item_shape item.now) feature → ⊥) }
    ensures broken { IfErr result (λ e. (w : World) → IsNamedBy (BreaksItem w truths.now item.now) e) }
{
    if truths.unstable {
        return Ok(());
    }
    match unstable_use(item) {
        Some(UnstableUse { feature, token }) => Err(Error::UnstableFeature { feature, token }),
        None => Ok(()),
    }
}

/// Refuses an item that uses a feature that needs the setting of lists where that isn't made.
fn check_lists<'src>(item: &Item<'src>, truths: &Truths) -> Result<(), Error<'src>>
    ensures clear { OnOk result (truths.now.lists ≡ false → (feature : ListFeature) → Contains (lists_of item.now) feature → ⊥) }
    ensures broken { IfErr result (λ e. (feature : ListFeature) × (rule_of e ≡ Some (lists_needed feature)) × (truths.now.lists ≡ false) × Contains (lists_of item.now) feature) }
{
    if truths.lists {
        return Ok(());
    }
    match list_use(item) {
        Some(ListUse { feature, token }) => Err(Error::ListsNeeded { feature, token }),
        None => Ok(()),
    }
}

/// Refuses an item where it is a recipe that breaks a rule.
fn check_if_recipe<'src>(item: &Item<'src>, truths: &Truths) -> Result<(), Error<'src>>
    ensures clear { OnOk result ((w : World) (rule : Rule) → BreaksIfRecipe w truths.now item.now rule → ⊥) }
    ensures broken { IfErr result (λ e. (w : World) → IsNamedBy (BreaksIfRecipe w truths.now item.now) e) }
{
    match item {
        Item::Recipe(recipe) => check_recipe(recipe, truths),
        _ => Ok(()),
    }
}

/// Refuses an item that is there where it needs the setting of lists, or is a recipe that breaks a rule.
fn check_enabled<'src>(item: &Item<'src>, truths: &Truths) -> Result<(), Error<'src>>
    ensures clear { OnOk result ((w : World) (rule : Rule) → BreaksEnabled w truths.now item.now rule → ⊥) }
    ensures broken { IfErr result (λ e. (w : World) → IsNamedBy (BreaksEnabled w truths.now item.now) e) }
{
    match check_lists(item, truths) {
        Ok(()) => check_if_recipe(item, truths),
        Err(refusal) => Err(refusal),
    }
}

/// Refuses an item that uses what the module's settings don't allow, or that breaks a rule of its
/// own; of a disabled one only the features that may still change are looked at.
fn check_item<'src>(item: &Item<'src>, truths: &Truths, os: Os) -> Result<(), Error<'src>>
    ensures clear { OnOk result ((w : World) (rule : Rule) → w.os ≡ os → BreaksItem w truths.now item.now rule → ⊥) }
    ensures broken { IfErr result (λ e. (w : World) → w.os ≡ os → IsNamedBy (BreaksItem w truths.now item.now) e) }
{
    match check_unstable(item, truths) {
        Ok(()) => {
            if !is_enabled(item, os) {
                return Ok(());
            }
            check_enabled(item, truths)
        }
        Err(refusal) => Err(refusal),
    }
}

/// Refuses the first of the items that breaks a rule.
fn check_items<'src>(items: &[Item<'src>], truths: &Truths, os: Os) -> Result<(), Error<'src>>
    ensures clear { OnOk result ((w : World) (rule : Rule) → w.os ≡ os → BreaksItems w truths.now items.now rule → ⊥) }
    ensures broken { IfErr result (λ e. (w : World) → w.os ≡ os → IsNamedBy (BreaksItems w truths.now items.now) e) }
{
    for item in items {
        match check_item(item, truths, os) {
            Ok(()) => {}
            Err(refusal) => return Err(refusal),
        }
    }
    Ok(())
}

/// The same of a file.
fn check_file<'src>(file: &File<'src>, truths: &Truths, os: Os) -> Result<(), Error<'src>>
    ensures clear { OnOk result ((w : World) (rule : Rule) → w.os ≡ os → BreaksItems w truths.now file.now.ast.items.items rule → ⊥) }
    ensures broken { IfErr result (λ e. (w : World) → w.os ≡ os → IsNamedBy (BreaksItems w truths.now file.now.ast.items.items) e) }
{
    check_items(file.ast.items.as_slice(), truths, os)
}

/// Refuses the first item of the files that breaks a rule: as `UnstableFeature`, as `ListsNeeded`, as
/// `Syntax` where a body line of a recipe that is no script begins with white space or has two marks
/// that exclude one another, as `CacheLeftOut`, and as `AttributeConflict`.
pub fn check_files<'src>(files: &[File<'src>], truths: &Truths, os: Os) -> Result<(), Error<'src>>
    ensures clear { OnOk result ((w : World) (rule : Rule) → w.os ≡ os → BreaksFiles w truths.now files.now rule → ⊥) }
    ensures broken { IfErr result (λ e. (w : World) → w.os ≡ os → IsNamedBy (BreaksFiles w truths.now files.now) e) }
{
    for file in files {
        match check_file(file, truths, os) {
            Ok(()) => {}
            Err(refusal) => return Err(refusal),
        }
    }
    Ok(())
}
