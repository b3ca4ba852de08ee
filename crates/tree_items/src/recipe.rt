//! Recipes.
ghost use Rattle.std.specs.Prelude.{◌≡◌, Some, codes};
ghost use Rattle.std.specs.Fmt.{WritesOnOk};
ghost use Rattle.tree_items.specs.Recipes as spec;

use crate::line::Line;
use crate::rows::{Arguments, Body, Dependencies, Parameters, Path, Subsequents};
use just_text::{Name, Namepath, Number, Text};
use std::fmt;
use tree_attributes::AttributeSet;
use tree_expressions::Expression;

/// How many values a parameter takes.
#[derive(Clone, Copy, Debug, PartialEq, Eq, PartialOrd, Ord)]
pub enum ParameterKind {
    /// `+`: one or more.
    Plus,
    Singular,
    /// `*`: any number.
    Star,
}

impl ParameterKind {
    /// Whether it takes all values that remain.
    pub fn is_variadic(self) -> bool
        ensures { result ≡ spec.is_variadic self }
    {
        match self {
            ParameterKind::Singular => false,
            ParameterKind::Plus | ParameterKind::Star => true,
        }
    }

    /// The mark before a parameter.
    fn mark(self) -> &'static str
        ensures { result.now ≡ spec.kind_mark self }
    {
        match self {
            ParameterKind::Plus => "+",
            ParameterKind::Singular => "",
            ParameterKind::Star => "*",
        }
    }
}

/// A parameter of a recipe, with the options that attributes give it.
pub struct Parameter<'src> {
    pub name: Name<'src>,
    pub number: Number,
    pub kind: ParameterKind,
    /// Whether it is exported to the environment.
    pub export: bool,
    /// Whether its option takes no value.
    pub flag: bool,
    /// Whether its option may be used more than once.
    pub multiple: bool,
    /// The greatest number of values.
    pub max: Option<u16>,
    /// The least number of values.
    pub min: Option<u16>,
    /// The name of its option after one dash.
    pub short: Option<char>,
    pub default: Option<Expression<'src>>,
    /// The value of its option, where that takes none.
    pub value: Option<Expression<'src>>,
    pub help: Option<Text>,
    /// The name of its option after two dashes.
    pub long: Option<Text>,
}

impl Drop for Parameter<'_> {
    fn drop(self) {
        let Parameter {
            default: _default,
            export: _export,
            flag: _flag,
            help: _help,
            kind: _kind,
            long: _long,
            max: _max,
            min: _min,
            multiple: _multiple,
            name: _name,
            number: _number,
            short: _short,
            value: _value,
        } = self;
    }
}

impl fmt::Display for Parameter<'_> {
    ghost output = { λ parameter. Some (spec.parameter_text (spec.parameter_shape parameter)) };

    fn fmt<W: fmt::Write>(&self, f: &mut fmt::Formatter<W>) -> fmt::Result {
        let mark = self.kind.mark();
        let dollar = if self.export { "$" } else { "" };
        let name = self.name;
        match &self.default {
            None => write!(f, "{mark}{dollar}{name}"),
            Some(default) => write!(f, "{mark}{dollar}{name}={default}"),
        }
    }
}

/// An argument of a dependency.
pub struct DependencyArgument<'src> {
    pub expression: Expression<'src>,
    /// `*`: the dependency runs once for each element.
    pub starred: bool,
}

impl Drop for DependencyArgument<'_> {
    fn drop(self) {
        let DependencyArgument {
            expression: _expression,
            starred: _starred,
        } = self;
    }
}

impl fmt::Display for DependencyArgument<'_> {
    ghost output = { λ argument. Some (spec.argument_text (spec.argument_shape argument)) };

    fn fmt<W: fmt::Write>(&self, f: &mut fmt::Formatter<W>) -> fmt::Result {
        let star = if self.starred { "*" } else { "" };
        let expression = &self.expression;
        write!(f, "{star}{expression}")
    }
}

/// A dependency as it is written.
pub struct UnresolvedDependency<'src> {
    pub arguments: Vec<DependencyArgument<'src>>,
    pub recipe: Namepath<'src>,
}

impl Drop for UnresolvedDependency<'_> {
    fn drop(self) {
        let UnresolvedDependency {
            arguments: _arguments,
            recipe: _recipe,
        } = self;
    }
}

impl fmt::Display for UnresolvedDependency<'_> {
    ghost output = { λ dependency. Some (spec.dependency_text (spec.dependency_shape dependency)) };

    fn fmt<W: fmt::Write>(&self, f: &mut fmt::Formatter<W>) -> fmt::Result {
        let recipe = Path(&self.recipe);
        if self.arguments.is_empty() {
            return write!(f, "{recipe}");
        }
        let arguments = Arguments(self.arguments.as_slice());
        write!(f, "({recipe}{arguments})")
    }
}

/// A recipe; `D` is the type of a dependency.
#[derive(Drop)]
pub struct Recipe<'src, D> {
    pub attributes: AttributeSet<'src>,
    pub parameters: Vec<Parameter<'src>>,
    /// What runs before the body.
    pub priors: Vec<D>,
    /// What runs after the body.
    pub subsequents: Vec<D>,
    pub body: Vec<Line<'src>>,
    /// `@` before the name.
    pub quiet: bool,
    pub number: Number,
    pub name: Name<'src>,
}

impl<'src, D> Recipe<'src, D> {
    /// The recipe's name and its parameters.
    pub fn signature(&self) -> RecipeSignature<'_, 'src>
        ensures { (result.name ≡ self.now.name) × (result.parameters.now ≡ self.now.parameters.items) }
    {
        RecipeSignature {
            name: self.name,
            parameters: self.parameters.as_slice(),
        }
    }
}

/// A recipe's name, and its parameters, each after a space.
#[derive(Clone, Copy)]
pub struct RecipeSignature<'a, 'src> {
    pub name: Name<'src>,
    pub parameters: &'a [Parameter<'src>],
}

impl fmt::Display for RecipeSignature<'_, '_> {
    ghost use Rattle.just_text.specs.Tokens.{lexeme};

    ghost output = { λ signature. Some (spec.signature_text (lexeme signature.name.token) (spec.parameter_shapes signature.parameters.now)) };

    fn fmt<W: fmt::Write>(&self, f: &mut fmt::Formatter<W>) -> fmt::Result {
        let name = self.name;
        let parameters = Parameters(self.parameters);
        write!(f, "{name}{parameters}")
    }
}

impl<'src> Recipe<'src, UnresolvedDependency<'src>> {
    /// Writes the recipe with this indentation of its body, and no newline at its end.
    pub fn print<W: fmt::Write>(&self, f: &mut fmt::Formatter<W>, indentation: &str) -> fmt::Result
        ensures { WritesOnOk W.write_str_gives f.old result (spec.recipe_text indentation.now (spec.recipe_shape self.now)) f.new }
    {
        self.print_header(f)?;
        let body = Body {
            indentation,
            lines: self.body.as_slice(),
        };
        write!(f, "{body}")
    }

    fn print_header<W: fmt::Write>(&self, f: &mut fmt::Formatter<W>) -> fmt::Result
        ensures { WritesOnOk W.write_str_gives f.old result (spec.header_text (spec.recipe_shape self.now)) f.new }
    {
        let at = if self.quiet { "@" } else { "" };
        let name = self.name;
        let parameters = Parameters(self.parameters.as_slice());
        let priors = Dependencies(self.priors.as_slice());
        let subsequents = Subsequents(self.subsequents.as_slice());
        write!(f, "{at}{name}{parameters}:{priors}{subsequents}")
    }
}

/// With an indentation of four spaces.
impl<'src> fmt::Display for Recipe<'src, UnresolvedDependency<'src>> {
    ghost output = { λ recipe. Some (spec.recipe_text (codes "    ") (spec.recipe_shape recipe)) };

    fn fmt<W: fmt::Write>(&self, f: &mut fmt::Formatter<W>) -> fmt::Result {
        self.print(f, "    ")
    }
}
