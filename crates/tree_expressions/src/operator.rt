//! Operators between expressions.
ghost use Rattle.std.specs.Prelude.{◌≡◌, Some};
ghost use Rattle.tree_expressions.specs.Operators.{comparison_mark, list_mark, list_separator};

use std::fmt;

/// An operator that compares two values.
#[derive(Clone, Copy, Debug)]
pub enum ConditionalOperator {
    Equality,
    Inequality,
    RegexMatch,
    RegexMismatch,
}

impl ConditionalOperator {
    /// The operator as it is written.
    pub fn mark(self) -> &'static str
        ensures { result.now ≡ comparison_mark self }
    {
        match self {
            ConditionalOperator::Equality => "==",
            ConditionalOperator::Inequality => "!=",
            ConditionalOperator::RegexMatch => "=~",
            ConditionalOperator::RegexMismatch => "!~",
        }
    }
}

impl fmt::Display for ConditionalOperator {
    ghost output = { λ operator. Some (comparison_mark operator) };

    fn fmt<W: fmt::Write>(&self, f: &mut fmt::Formatter<W>) -> fmt::Result {
        f.write_str(self.mark())
    }
}

/// An operator that joins two lists element by element.
#[derive(Clone, Copy, Debug)]
pub enum ListOperator {
    Concatenate,
    Join,
}

impl ListOperator {
    /// What stands between two texts that the operator joins.
    pub fn separator(self) -> &'static str
        ensures { result.now ≡ list_separator self }
    {
        match self {
            ListOperator::Concatenate => "",
            ListOperator::Join => "/",
        }
    }

    /// The operator as it is written.
    pub fn mark(self) -> &'static str
        ensures { result.now ≡ list_mark self }
    {
        match self {
            ListOperator::Concatenate => "+",
            ListOperator::Join => "/",
        }
    }
}

impl fmt::Display for ListOperator {
    ghost output = { λ operator. Some (list_mark operator) };

    fn fmt<W: fmt::Write>(&self, f: &mut fmt::Formatter<W>) -> fmt::Result {
        f.write_str(self.mark())
    }
}
