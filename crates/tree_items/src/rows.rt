//! Lists of parts of recipes as they are printed.
ghost use Rattle.std.specs.Prelude.{Some};
ghost use Rattle.tree_items.specs.Items as items;
ghost use Rattle.tree_items.specs.Recipes as spec;

use crate::item::FunctionParameter;
use crate::line::Line;
use crate::recipe::{DependencyArgument, Parameter, UnresolvedDependency};
use just_text::Namepath;
use std::fmt;

/// A path's names with `::` between two.
#[derive(Clone, Copy)]
pub struct Path<'src, 'a>(pub &'a Namepath<'src>);

impl fmt::Display for Path<'_, '_> {
    ghost use Rattle.just_text.specs.Names.{joined_names};
    ghost use Rattle.tree_items.specs.Paths.{path_names};

    ghost output = { λ path. Some (joined_names (path_names path.0.now)) };

    fn fmt<W: fmt::Write>(&self, f: &mut fmt::Formatter<W>) -> fmt::Result {
        let names = self.0;
        write!(f, "{names}")
    }
}

/// Parameters, each after a space.
#[derive(Clone, Copy)]
pub struct Parameters<'src, 'a>(pub &'a [Parameter<'src>]);

impl fmt::Display for Parameters<'_, '_> {
    ghost output = { λ row. Some (spec.parameters_text (spec.parameter_shapes row.0.now)) };

    #[tactic(auto, using(crate::proofs::RowText::texts_next))]
    fn fmt<W: fmt::Write>(&self, f: &mut fmt::Formatter<W>) -> fmt::Result {
        for parameter in self.0 {
            write!(f, " {parameter}")?;
        }
        Ok(())
    }
}

/// Arguments of a dependency, each after a space.
#[derive(Clone, Copy)]
pub struct Arguments<'src, 'a>(pub &'a [DependencyArgument<'src>]);

impl fmt::Display for Arguments<'_, '_> {
    ghost output = { λ row. Some (spec.arguments_text (spec.argument_shapes row.0.now)) };

    #[tactic(auto, using(crate::proofs::RowText::texts_next))]
    fn fmt<W: fmt::Write>(&self, f: &mut fmt::Formatter<W>) -> fmt::Result {
        for argument in self.0 {
            write!(f, " {argument}")?;
        }
        Ok(())
    }
}

/// Dependencies, each after a space.
#[derive(Clone, Copy)]
pub struct Dependencies<'src, 'a>(pub &'a [UnresolvedDependency<'src>]);

impl fmt::Display for Dependencies<'_, '_> {
    ghost output = { λ row. Some (spec.dependencies_text (spec.dependency_shapes row.0.now)) };

    #[tactic(auto, using(crate::proofs::RowText::texts_next))]
    fn fmt<W: fmt::Write>(&self, f: &mut fmt::Formatter<W>) -> fmt::Result {
        for dependency in self.0 {
            write!(f, " {dependency}")?;
        }
        Ok(())
    }
}

/// The dependencies after a recipe's body, after ` &&` if there are any.
#[derive(Clone, Copy)]
pub struct Subsequents<'src, 'a>(pub &'a [UnresolvedDependency<'src>]);

impl fmt::Display for Subsequents<'_, '_> {
    ghost output = { λ row. Some (spec.subsequents_text (spec.dependency_shapes row.0.now)) };

    fn fmt<W: fmt::Write>(&self, f: &mut fmt::Formatter<W>) -> fmt::Result {
        if self.0.is_empty() {
            return Ok(());
        }
        let dependencies = Dependencies(self.0);
        write!(f, " &&{dependencies}")
    }
}

/// A line of a body after the indentation; a blank line is empty.
#[derive(Clone, Copy)]
pub struct Indented<'src, 'a> {
    pub indentation: &'a str,
    pub line: &'a Line<'src>,
}

impl fmt::Display for Indented<'_, '_> {
    ghost use Rattle.tree_items.specs.Lines.{pieces_of};

    ghost output = { λ row. Some (spec.indented row.indentation.now (pieces_of row.line.now)) };

    fn fmt<W: fmt::Write>(&self, f: &mut fmt::Formatter<W>) -> fmt::Result {
        let indentation = self.indentation;
        let line = self.line;
        if line.fragments.is_empty() {
            return Ok(());
        }
        write!(f, "{indentation}{line}")
    }
}

/// A body, each line after a newline.
#[derive(Clone, Copy)]
pub struct Body<'src, 'a> {
    pub indentation: &'a str,
    pub lines: &'a [Line<'src>],
}

impl fmt::Display for Body<'_, '_> {
    ghost output = { λ body. Some (spec.body_text body.indentation.now (spec.body_shape body.lines.now)) };

    #[tactic(auto, using(crate::proofs::RowText::texts_next))]
    fn fmt<W: fmt::Write>(&self, f: &mut fmt::Formatter<W>) -> fmt::Result {
        let indentation = self.indentation;
        for line in self.lines {
            let row = Indented { indentation, line };
            write!(f, "\n{row}")?;
        }
        Ok(())
    }
}

/// Names of parameters, with a comma and a space between two.
#[derive(Clone, Copy)]
pub struct Names<'src, 'a>(pub &'a [FunctionParameter<'src>]);

impl fmt::Display for Names<'_, '_> {
    ghost output = { λ row. Some (items.names_text (items.names_of row.0.now)) };

    #[tactic(auto, using(crate::proofs::RowText::texts_next))]
    fn fmt<W: fmt::Write>(&self, f: &mut fmt::Formatter<W>) -> fmt::Result {
        let parameters = self.0;
        let Some((first, others)) = parameters.split_first() else {
            return Ok(());
        };
        let name = first.name();
        write!(f, "{name}")?;
        for parameter in others {
            let name = parameter.name();
            write!(f, ", {name}")?;
        }
        Ok(())
    }
}
