//! Laws of what a call does, which contracts above cite.
pub mod parameters;
pub mod stages;

ghost use Rattle.std.specs.Prelude.{◌≡◌};
ghost use Rattle.meaning_evaluation.specs.Bodies.{commands};
ghost use Rattle.meaning_evaluation.specs.Calling.{acts};
ghost use Rattle.meaning_evaluation.specs.Groups.{grouped};
ghost use Rattle.meaning_evaluation.specs.Named.{same_call};
ghost use Rattle.meaning_evaluation.specs.Scopes.{surroundings_in};

/// Brings the laws into the check.
#[tactic(auto, using(crate::proofs::Calls::calls_decide, crate::proofs::Bodies::lines_go, crate::proofs::Examples::modules))]
pub fn law(number: u8) -> u8
    ensures { result ≡ number }
{
    number
}
