//! Laws of trees, which contracts above cite.
ghost use Rattle.std.specs.Prelude.{◌≡◌};

/// Brings the laws into the check.
#[tactic(auto, using(crate::proofs::Terms::Cooked::cooked, crate::proofs::Terms::Numbers::has_numbers, crate::proofs::Terms::Forms::and_parts, crate::proofs::Terms::Terms::term_of_shape, crate::proofs::Terms::Variables::numbered_has, crate::proofs::Terms::Distinct::items_differ, crate::proofs::Terms::ByNames::alike_by_names, crate::proofs::Terms::Kept::numbered_cooked))]
pub fn law(number: u8) -> u8
    ensures { result ≡ number }
{
    number
}
