//! The variables of all modules, what they read, and their orders.
use crate::module_lists::ModuleLists;
use crate::module_reads::ModuleReads;

/// What each module keeps, what its variables and functions read, and the order of its variables, by
/// the modules' places.
#[derive(Drop)]
pub struct ModuleVariables<'src, 'a> {
    pub lists: Vec<ModuleLists<'src, 'a>>,
    pub reads: Vec<ModuleReads<'src>>,
    /// The places of each module's variables, each after those that it reads.
    pub orders: Vec<Vec<usize>>,
}
