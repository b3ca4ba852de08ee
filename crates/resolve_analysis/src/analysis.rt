//! What is known of a justfile.
use crate::known_values::KnownValues;
use crate::recipes::RecipeTable;
use crate::variables::ModuleVariables;
use modules_compilation::ModuleNode;

/// What is known of a justfile with all its modules. It borrows from the compilation.
#[derive(Drop)]
pub struct Analysis<'src, 'a> {
    /// The modules: the root is the first, and each stands after its parent.
    pub modules: &'a [ModuleNode<'src>],
    pub variables: ModuleVariables<'src, 'a>,
    pub values: Box<KnownValues>,
    pub table: Box<RecipeTable<'src>>,
}
