//! The variables of all modules, what they read, and their orders.
ghost use Rattle.std.specs.Prelude.{◌≡◌, ◌≢◌, IfErr, IfOk, length};
ghost use Rattle.resolve_references.specs.declared.read_fault.ReadFault.TheVariants as reading;
ghost use Rattle.just_resolve.specs.Variables.{AreOrders, AreReads, AreRefused, AreVariables, AreVariablesOf, AreVariablesRefused, IsOrderRefused, IsReadRefused};
ghost use Rattle.just_resolve.specs.declared.error.Error.TheVariants.{OutOfMemory};

use crate::cycles::variables_in_order;
use crate::error::Error;
use just_text::Number;
use modules_compilation::Compilation;
use resolve_analysis::{ModuleLists, ModuleReads, ModuleVariables, all_lists, reads_of};
use resolve_references::ReadFault;
use std::alloc::Global;
use std::collections::BTreeMap;

/// What each module's variables and functions read.
fn all_reads<'src>(
    alloc: Global,
    lists: &[ModuleLists<'src, '_>],
    overrides: &BTreeMap<Number, String>,
) -> Result<Vec<ModuleReads<'src>>, ReadFault<'src>>
    ensures reads { IfOk result (λ all. AreReads overrides.now lists.now all.items) }
    ensures refused { IfErr result (λ fault. fault ≢ reading.OutOfMemory → IsReadRefused lists.now fault) }
{
    let mut all = Vec::new(alloc);
    for one in lists {
        all.push(reads_of(alloc, one, overrides)?)?;
    }
    Ok(all)
}

/// The order of each module's variables.
fn all_orders<'src>(
    alloc: Global,
    lists: &[ModuleLists<'src, '_>],
    reads: &[ModuleReads<'src>],
) -> Result<Vec<Vec<usize>>, Error<'src>>
    ensures orders { IfOk result (λ all. length reads.now ≡ length lists.now → AreOrders lists.now reads.now all.items) }
    ensures refused { IfErr result (λ error. error ≢ OutOfMemory → IsOrderRefused lists.now reads.now error) }
{
    let mut orders = Vec::new(alloc);
    for module in 0..lists.len() {
        let Some(reads) = reads.get(module) else {
            return Ok(orders);
        };
        orders.push(variables_in_order(alloc, &lists[module], reads)?)?;
    }
    Ok(orders)
}

/// What the modules keep and read.
fn read_variables<'src, 'a>(
    alloc: Global,
    overrides: &BTreeMap<Number, String>,
    lists: Vec<ModuleLists<'src, 'a>>,
) -> Result<ModuleVariables<'src, 'a>, Error<'src>>
    ensures variables { IfOk result (λ variables. AreVariablesOf overrides.now lists.entry.items variables) }
    ensures refused { IfErr result (λ error. error ≢ OutOfMemory → AreRefused overrides.now lists.entry.items error) }
{
    let reads = all_reads(alloc, lists.as_slice(), overrides)?;
    let orders = all_orders(alloc, lists.as_slice(), reads.as_slice())?;
    Ok(ModuleVariables {
        lists,
        reads,
        orders,
    })
}

/// What the modules keep and read, where words give texts for the variables of these numbers. Refused
/// where an expression reads a name that stands for nothing, or calls no function or one with another
/// number of arguments; where variables read each other in a cycle; and where memory runs out.
pub fn module_variables<'src, 'a>(
    alloc: Global,
    compilation: &'a Compilation<'src>,
    overrides: &BTreeMap<Number, String>,
) -> Result<ModuleVariables<'src, 'a>, Error<'src>>
    ensures variables { IfOk result (λ variables. AreVariables overrides.now compilation.now variables) }
    ensures refused { IfErr result (λ error. error ≢ OutOfMemory → AreVariablesRefused overrides.now compilation.now error) }
{
    let lists = all_lists(alloc, compilation)?;
    read_variables(alloc, overrides, lists)
}
