//! Items but recipes and settings.
ghost use Rattle.std.specs.Prelude.{◌≡◌, Some};
ghost use Rattle.tree_items.specs.Items as spec;

use crate::rows::{Names, Path};
use just_text::{Name, Namepath, Number};
use std::fmt;
use std::marker::Model;
use tree_attributes::AttributeSet;
use tree_expressions::{Expression, StringLiteral};

/// Another name of a recipe; `T` is the type of what it names.
#[derive(Drop)]
pub struct Alias<'src, T> {
    pub attributes: AttributeSet<'src>,
    pub name: Name<'src>,
    pub target: T,
}

impl<'src> fmt::Display for Alias<'src, Namepath<'src>> {
    ghost output = { λ alias. Some (spec.alias_text (spec.alias_shape alias)) };

    fn fmt<W: fmt::Write>(&self, f: &mut fmt::Formatter<W>) -> fmt::Result {
        let name = self.name;
        let target = Path(&self.target);
        write!(f, "alias {name} := {target}")
    }
}

/// An alias whose target is a recipe's own name.
pub type RecipeAlias<'src> = Alias<'src, Name<'src>>;

impl<'src> fmt::Display for Alias<'src, Name<'src>> {
    ghost output = { λ alias. Some (spec.alias_text (spec.recipe_alias_shape alias)) };

    fn fmt<W: fmt::Write>(&self, f: &mut fmt::Formatter<W>) -> fmt::Result {
        let name = self.name;
        let recipe = self.target;
        write!(f, "alias {name} := {recipe}")
    }
}

/// A name and its value.
#[derive(Drop)]
pub struct Binding<'src, V> {
    pub attributes: AttributeSet<'src>,
    /// Whether it is evaluated even where nothing reads it.
    pub eager: bool,
    /// Whether it is exported to the environment.
    pub export: bool,
    /// How many imports lead to its file: 0 in a tree that was read, since a file is read alone.
    pub file_depth: u32,
    pub name: Name<'src>,
    pub number: Number,
    /// Whether it is a constant of the language: never in a tree that was read.
    pub prelude: bool,
    pub private: bool,
    pub value: V,
}

/// A variable and its expression.
pub type Assignment<'src> = Binding<'src, Expression<'src>>;

impl<'src> fmt::Display for Binding<'src, Expression<'src>> {
    ghost output = { λ assignment. Some (spec.assignment_text (spec.assignment_shape assignment)) };

    fn fmt<W: fmt::Write>(&self, f: &mut fmt::Formatter<W>) -> fmt::Result {
        let export = if self.export { "export " } else { "" };
        let eager = if self.eager { "eager " } else { "" };
        let name = self.name;
        let value = &self.value;
        write!(f, "{export}{eager}{name} := {value}")
    }
}

/// A parameter of a function. Contracts see it as its name and its number.
#[derive(Drop)]
pub struct FunctionParameter<'src> {
    name: Name<'src>,
    number: Number,
}

impl<'src> Model for FunctionParameter<'src> {
    ghost use Rattle.std.specs.Prelude.{ℕ};
    ghost use Rattle.just_text.specs.declared.name.Name.{Name};

    ghost Value = { Name × ℕ };

    ghost view = { λ p. (p.name, p.number) };
}

impl<'src> FunctionParameter<'src> {
    /// The parameter with that name and that binding number.
    pub fn new(name: Name<'src>, number: Number) -> FunctionParameter<'src>
        ensures { result ≡ (name.entry, number) }
    {
        FunctionParameter { name, number }
    }

    /// Its name where it is written.
    pub fn name(&self) -> Name<'src>
        ensures { result ≡ self.now.0 }
    {
        self.name
    }

    /// The number of its binding.
    pub fn number(&self) -> Number
        ensures { result ≡ self.now.1 }
    {
        self.number
    }
}

/// A function that the file defines.
pub struct FunctionDefinition<'src> {
    pub body: Expression<'src>,
    pub name: Name<'src>,
    pub parameters: Vec<FunctionParameter<'src>>,
}

impl Drop for FunctionDefinition<'_> {
    fn drop(self) {
        let FunctionDefinition {
            body: _body,
            name: _name,
            parameters: _parameters,
        } = self;
    }
}

impl fmt::Display for FunctionDefinition<'_> {
    ghost output = { λ function. Some (spec.function_text (spec.function_shape function)) };

    fn fmt<W: fmt::Write>(&self, f: &mut fmt::Formatter<W>) -> fmt::Result {
        let name = self.name;
        let parameters = Names(self.parameters.as_slice());
        let body = &self.body;
        write!(f, "{name}({parameters}) := {body}")
    }
}

/// The file whose items stand here too.
pub struct Import<'src> {
    /// `?`: the file may be missing.
    pub optional: bool,
    pub path: StringLiteral<'src>,
}

impl Drop for Import<'_> {
    fn drop(self) {
        let Import {
            optional: _optional,
            path: _path,
        } = self;
    }
}

impl fmt::Display for Import<'_> {
    ghost output = { λ import. Some (spec.import_text (spec.import_shape import)) };

    fn fmt<W: fmt::Write>(&self, f: &mut fmt::Formatter<W>) -> fmt::Result {
        let question = if self.optional { "?" } else { "" };
        let path = self.path.token.lexeme();
        write!(f, "import{question} {path}")
    }
}

/// A submodule, and its file where one is named.
#[derive(Drop)]
pub struct Module<'src> {
    pub attributes: AttributeSet<'src>,
    pub name: Name<'src>,
    /// `?`: the file may be missing.
    pub optional: bool,
    pub path: Option<StringLiteral<'src>>,
}

impl fmt::Display for Module<'_> {
    ghost output = { λ submodule. Some (spec.module_text (spec.module_shape submodule)) };

    fn fmt<W: fmt::Write>(&self, f: &mut fmt::Formatter<W>) -> fmt::Result {
        let question = if self.optional { "?" } else { "" };
        let name = self.name;
        match &self.path {
            None => write!(f, "mod{question} {name}"),
            Some(path) => {
                let path = path.token.lexeme();
                write!(f, "mod{question} {name} {path}")
            }
        }
    }
}

/// A name that is not exported.
#[derive(Drop)]
pub struct Unexport<'src> {
    pub name: Name<'src>,
}

impl fmt::Display for Unexport<'_> {
    ghost output = { λ unexport. Some (spec.unexport_text (spec.unexport_shape unexport)) };

    fn fmt<W: fmt::Write>(&self, f: &mut fmt::Formatter<W>) -> fmt::Result {
        let name = self.name;
        write!(f, "unexport {name}")
    }
}
