//! Lines, recipes, items and whole files as trees, and their printed texts; names and indentation;
//! names and numbers of variables.
#![tactic(auto)]

mod ast;
mod indentation;
mod item;
mod keyed;
mod line;
mod printable;
mod recipe;
mod rows;
mod set;
mod variables;

pub use ast::{Ast, Item, ListFeature, UnstableFeature};
pub use item::{
    Alias, Assignment, Binding, FunctionDefinition, FunctionParameter, Import, Module, RecipeAlias,
    Unexport,
};
pub use keyed::Keyed;
pub use line::{Fragment, Line, Sigils};
pub use recipe::{
    DependencyArgument, Parameter, ParameterKind, Recipe, RecipeSignature, UnresolvedDependency,
};
pub use set::Set;
pub use variables::{ExpressionContext, resolve_attributes, resolve_variables};
