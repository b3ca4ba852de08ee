//! Justfiles by one name: their tokens and refusals, their trees with their printed texts, names of
//! variables and attributes, and the parser of whole files; words, and when they are the tokens of their
//! joined text.
#![tactic(auto)]

mod features;
mod file;
pub mod file_law;
mod item;
pub mod law;
pub mod parser;
mod printer;
mod refusal;

pub use just_lexer::Lexer;
pub use just_text::{
    CompileError, CompileErrorKind, Count, Delimiter, ExpandFault, Expander, Keyword, Name,
    Namepath, Number, Numerator, Os, Sequence, Text, Token, TokenKind,
};
pub use parser::Parser;
pub use printer::print;
pub use tree_attributes::{
    ArgumentOptions, Attribute, AttributeArguments, AttributeItem, AttributeKind, AttributeSet,
    Indentation, Interpreter, InvalidIndentation, ItemKind, LongName, PrintedArguments, Setting,
    is_private, kind_from_name, may_carry,
};
pub use tree_expressions::{
    ConditionalOperator, Expression, ListOperator, StringDelimiter, StringKind, StringLiteral,
    StringPrefix, command_text, cook_part, halve, unindent,
};
pub use tree_items::{
    Alias, Assignment, Ast, Binding, DependencyArgument, ExpressionContext, Fragment,
    FunctionDefinition, FunctionParameter, Import, Item, Keyed, Line, ListFeature, Module,
    Parameter, ParameterKind, Recipe, RecipeAlias, RecipeSignature, Set, Sigils, Unexport,
    UnresolvedDependency, UnstableFeature, resolve_attributes, resolve_variables,
};
