//! Laws of evaluations that never end with `internal`, which contracts above cite.
ghost use Rattle.std.specs.Prelude.{◌≡◌};

/// Brings the laws into the check.
#[tactic(auto, using(crate::proofs::Soundness::Results::variable_means, crate::proofs::Soundness::Tables::builtin_proper, crate::proofs::Soundness::Terms::proper, crate::proofs::Soundness::Calls::run_never_internal, crate::proofs::Soundness::Frames::run_in_frames, crate::proofs::Soundness::Constants::constants_proper, crate::proofs::Soundness::Lines::line_names_proper, crate::proofs::Soundness::Parameters::bound_in_frames, crate::proofs::Soundness::Bodies::body_line_in_frames, crate::proofs::Soundness::Opening::opening_proper, crate::proofs::Soundness::Examples::known_call))]
pub fn law(number: u8) -> u8
    ensures { result ≡ number }
{
    number
}
