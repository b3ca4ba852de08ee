//! Laws of the stages of evaluation, which contracts above cite.
ghost use Rattle.std.specs.Prelude.{◌≡◌};
ghost use Rattle.meaning_evaluation.specs.Stages.Assigned.{Assigned};
ghost use Rattle.meaning_evaluation.specs.Stages.Lines.{line_dialogue};
ghost use Rattle.meaning_evaluation.specs.Stages.Parameters.{bound_dialogue};
ghost use Rattle.meaning_evaluation.specs.Stages.Stages.{run_stage};

/// Brings the laws into the check.
#[tactic(auto, using(crate::proofs::Stages::Called::call_goes, crate::proofs::Stages::Tables::builtin_sound, crate::proofs::Stages::Depth::has_value, crate::proofs::Stages::Examples::unrun_command))]
pub fn law(number: u8) -> u8
    ensures { result ≡ number }
{
    number
}
