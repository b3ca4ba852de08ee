//! The order in which modules open.
ghost use Rattle.std.specs.Prelude.{◌≡◌, ◌∷◌, ◌++◌, [], IfOk, OnOk, length, reverse};
ghost use Rattle.run_tasks.specs.Prepared.Order.{opening_from};

use modules_compilation::ModuleNode;
use std::alloc::{AllocError, Global};

/// Puts the submodules there, the last first.
fn push_last_first(open: &mut Vec<usize>, modules: &[usize]) -> Result<(), AllocError>
    ensures { OnOk result (reverse open.new.items ≡ modules.now ++ reverse open.old.items) }
{
    for count in 0..modules.len() {
        let last = modules[modules.len() - 1 - count];
        open.push(last)?;
    }
    Ok(())
}

/// The modules in the order in which they open: parents first, those of one parent by name, each
/// with its submodules before the next.
pub(crate) fn opening_order(alloc: Global, modules: &[ModuleNode]) -> Result<Vec<usize>, AllocError>
    ensures { IfOk result (λ order. order.items ≡ opening_from (length modules.now) modules.now (0 ∷ [])) }
{
    let mut order = Vec::new(alloc);
    let mut open = Vec::new(alloc);
    open.push(0)?;
    for _ in 0..modules.len() {
        let Some(next) = open.pop() else {
            return Ok(order);
        };
        order.push(next)?;
        if next < modules.len() {
            push_last_first(&mut open, modules[next].submodules.as_slice())?;
        }
    }
    Ok(order)
}
