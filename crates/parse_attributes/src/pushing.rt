//! What is read, put after what was read before.
ghost use Rattle.std.specs.Prelude.{◌≡◌, ◌⊎◌, Err, IfOk, Ok, [], ◌++◌, ◌∷◌};
ghost use Rattle.parse_expressions.specs.declared.fault.Fault.{Fault as AnyFault};
ghost use Rattle.parse_expressions.specs.declared.fault.Fault.TheVariants.{OutOfMemory};

use parse_expressions::Fault;

/// Puts what was read after these, unless it was refused.
pub(crate) fn push_read<'src, T: Drop>(
    items: &mut Vec<T>,
    item: Result<T, Fault<'src>>,
) -> Result<(), Fault<'src>>
    ensures stored { IfOk result (λ _. (x : T) × (item.entry ≡ Ok x) × (items.new.items ≡ items.old.items ++ x ∷ [])) }
    ensures refused { (fault : AnyFault) → result ≡ Err fault → (item.entry ≡ Err fault) ⊎ (fault ≡ OutOfMemory) }
{
    match item {
        Ok(item) => {
            items.push(item)?;
            Ok(())
        }
        Err(fault) => Err(fault),
    }
}
