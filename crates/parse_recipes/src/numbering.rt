//! Numbers for what a parser finds.
ghost use Rattle.std.specs.Prelude.{◌≡◌, ◌+◌, ◌^◌, IfErr, IfOk};
ghost use Rattle.parse_expressions.specs.declared.fault.Fault.TheVariants.{NumbersUsed};

use just_text::{Number, Numerator};
use parse_expressions::Fault;

/// The next binding's number. Refused only where none is left, and nothing is changed then.
pub fn next_binding(numerator: &mut Numerator) -> Result<Number, Fault<'static>>
    ensures ok { IfOk result (λ n. (n ≡ numerator.old.bindings) × (numerator.new ≡ record numerator.old { bindings = numerator.old.bindings + 1 })) }
    ensures err { IfErr result (λ f. (f ≡ NumbersUsed) × (numerator.old.bindings ≡ 2 ^ 32) × (numerator.new ≡ numerator.old)) }
{
    match numerator.next_binding() {
        Ok(number) => Ok(number),
        Err(_) => Err(Fault::NumbersUsed),
    }
}

/// The next recipe's number. Refused only where none is left, and nothing is changed then.
pub fn next_recipe(numerator: &mut Numerator) -> Result<Number, Fault<'static>>
    ensures ok { IfOk result (λ n. (n ≡ numerator.old.recipes) × (numerator.new ≡ record numerator.old { recipes = numerator.old.recipes + 1 })) }
    ensures err { IfErr result (λ f. (f ≡ NumbersUsed) × (numerator.old.recipes ≡ 2 ^ 32) × (numerator.new ≡ numerator.old)) }
{
    match numerator.next_recipe() {
        Ok(number) => Ok(number),
        Err(_) => Err(Fault::NumbersUsed),
    }
}
