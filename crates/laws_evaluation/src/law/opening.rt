//! Laws of the opening, which contracts above cite.
ghost use Rattle.std.specs.Prelude.{◌≡◌};

/// Brings the laws into the check.
#[tactic(auto, using(crate::proofs::Opening::Depths::one_meaning, crate::proofs::Opening::Opening::record_grows, crate::proofs::Opening::Opening::each_has_value, crate::proofs::Opening::Opening::faults_at, crate::proofs::Opening::Unfolded::opened_means, crate::proofs::Opening::Unfolded::fault_means, crate::proofs::Opening::Lazy::lazy_means, crate::proofs::Opening::Lazy::lazy_fault, crate::proofs::Opening::Lazy::others_unread, crate::proofs::Opening::Alike::places_alike, crate::proofs::Opening::Run::run_means, crate::proofs::Opening::Run::run_fault, crate::proofs::Opening::Reached::constant_reads, crate::proofs::Opening::Examples::second_means, crate::proofs::Opening::Examples::second_constant, crate::proofs::Opening::Exported::exported_alike, crate::proofs::Opening::Values::first_of, crate::proofs::Opening::Placed::stands_after_needs, crate::proofs::Opening::Stopping::stops_because, crate::proofs::Opening::Constants::constants_mean, crate::proofs::Opening::Constants::constant_fault_means, crate::proofs::Opening::Constants::excluded_stops))]
pub fn law(number: u8) -> u8
    ensures { result ≡ number }
{
    number
}
