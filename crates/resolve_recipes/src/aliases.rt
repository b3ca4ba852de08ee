//! The recipes that aliases stand for.
ghost use Rattle.std.specs.Prelude.{◌≡◌, ◌≢◌, IfErr, IfOk, Ok, Err};
ghost use Rattle.resolve_recipes.specs.Named.{AllByName};
ghost use Rattle.resolve_recipes.specs.Aliases.{rank_of, resolved_at};
ghost use Rattle.resolve_recipes.specs.Refusals.{out_of_memory, told, unknown_alias_target};
ghost use Rattle.resolve_recipes.specs.Resolving.{named_in};

use crate::fault::DependencyFault;
use crate::recipe_resolver::{Named, RecipeResolver, target_of};
use just_text::{Name, Namepath};
use modules_compilation::{Compilation, ModuleNode};
use std::alloc::Global;
use tree_items::Alias;

/// An alias by its name, and the place of its recipe.
#[derive(Clone, Copy)]
pub struct ResolvedAlias<'src> {
    pub name: Name<'src>,
    pub recipe: usize,
}

/// That the alias stands for no recipe.
fn unknown<'a, 'src>(alias: &'a Alias<'src, Namepath<'src>>) -> DependencyFault<'a, 'src>
    ensures { told result ≡ unknown_alias_target alias.now.name alias.now.target }
{
    DependencyFault::UnknownAliasTarget {
        alias: alias.name,
        target: &alias.target,
    }
}

fn alias_rank<'a, 'src>(
    compilation: &Compilation<'src>,
    resolver: &RecipeResolver,
    ranks: &[usize],
    module: usize,
    alias: &'a Alias<'src, Namepath<'src>>,
) -> Result<usize, DependencyFault<'a, 'src>>
    ensures ok { IfOk result (λ rank. AllByName compilation.now → rank_of ranks.now (named_in compilation.now resolver.now.places.now «module» alias.now.target) alias.now ≡ Ok rank) }
    ensures err { IfErr result (λ fault. AllByName compilation.now → rank_of ranks.now (named_in compilation.now resolver.now.places.now «module» alias.now.target) alias.now ≡ Err (told fault)) }
{
    match target_of(compilation, resolver, module, &alias.target) {
        Named::Recipe(place) => match ranks.get(place) {
            Some(rank) => Ok(*rank),
            None => Err(unknown(alias)),
        },
        Named::Module => Err(DependencyFault::ModuleAsRecipe(&alias.target)),
        Named::Nothing => Err(unknown(alias)),
    }
}

/// The module's aliases in byte order of their names, each with the rank of its recipe. Refused where
/// one stands for a module or for nothing, and where memory runs out.
pub fn resolved_aliases<'a, 'src>(
    alloc: Global,
    compilation: &'a Compilation<'src>,
    resolver: &RecipeResolver,
    ranks: &[usize],
    module: usize,
    node: &ModuleNode<'src>,
) -> Result<Vec<ResolvedAlias<'src>>, DependencyFault<'a, 'src>>
    ensures ok { IfOk result (λ aliases. AllByName compilation.now → resolved_at compilation.now resolver.now.places.now ranks.now «module» node.now.aliases.items ≡ Ok aliases.items) }
    ensures err { IfErr result (λ fault. told fault ≢ out_of_memory → AllByName compilation.now → resolved_at compilation.now resolver.now.places.now ranks.now «module» node.now.aliases.items ≡ Err (told fault)) }
{
    let mut aliases = Vec::new(alloc);
    for place in &node.aliases {
        let Some(alias) = compilation.alias(*place) else {
            continue;
        };
        match alias_rank(compilation, resolver, ranks, module, alias) {
            Ok(recipe) => aliases.push(ResolvedAlias {
                name: alias.name,
                recipe,
            })?,
            Err(fault) => return Err(fault),
        }
    }
    Ok(aliases)
}
