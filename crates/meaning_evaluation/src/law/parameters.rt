//! Laws of a recipe's parameters, which contracts above cite.
ghost use Rattle.std.specs.Prelude.{◌≡◌};
ghost use Rattle.meaning_evaluation.specs.Parameters.Bindings.{GivesBound};

/// Brings the laws into the check.
#[tactic(auto, using(crate::proofs::Parameters::Under::under_goes, crate::proofs::Parameters::Pairs::pairs_end, crate::proofs::Parameters::Parameters::binds_end, crate::proofs::Parameters::Whole::bound_gives))]
pub fn law(number: u8) -> u8
    ensures { result ≡ number }
{
    number
}
