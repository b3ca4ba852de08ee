//! Laws of dialogues, which contracts above cite.
ghost use Rattle.std.specs.Prelude.{◌≡◌};
ghost use Rattle.meaning_dialogues.specs.Answers.{IsAnswered};
ghost use Rattle.meaning_dialogues.specs.Calls.{const_stage, reading_in_frames};
ghost use Rattle.meaning_dialogues.specs.Constants.{constant};
ghost use Rattle.meaning_dialogues.specs.Dialogue.{Evaluates};
ghost use Rattle.meaning_dialogues.specs.Evaluation.{dialogue};
ghost use Rattle.meaning_dialogues.specs.Faults.{const_fault};
ghost use Rattle.meaning_dialogues.specs.Meaning.{meaning};
ghost use Rattle.meaning_dialogues.specs.Terms.{printed};
ghost use Rattle.meaning_dialogues.specs.Written.{term_in};

/// Brings the laws into the check.
#[tactic(auto, using(crate::proofs::Dialogues::then_goes, crate::proofs::Rows::leads_first, crate::proofs::Forms::call_term, crate::proofs::Answered::is_answered, crate::proofs::Unfolding::unfolds, crate::proofs::Quiet::settles, crate::proofs::Soundness::then_sound, crate::proofs::Settling::settled_means, crate::proofs::Agreement::agrees))]
pub fn law(number: u8) -> u8
    ensures { result ≡ number }
{
    number
}
