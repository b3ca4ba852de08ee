//! Laws of runs, which contracts above cite.
ghost use Rattle.std.specs.Prelude.{◌≡◌};
ghost use Rattle.meaning_runs.specs.Acts.{host_parts};
ghost use Rattle.meaning_runs.specs.Counts.{IsCounted};
ghost use Rattle.meaning_runs.specs.Failures.{next_by};
ghost use Rattle.meaning_runs.specs.Goes.{Goes};
ghost use Rattle.meaning_runs.specs.Invokes.{Invoke};
ghost use Rattle.meaning_runs.specs.Laws.{GoBy};
ghost use Rattle.meaning_runs.specs.Meant.{task_meaning};
ghost use Rattle.meaning_runs.specs.Naive.{naive};
ghost use Rattle.meaning_runs.specs.Parts.{Parts};
ghost use Rattle.meaning_runs.specs.Tallies.{met_one};
ghost use Rattle.meaning_runs.specs.Task.{TaskGoes};
ghost use Rattle.meaning_runs.specs.Told.{holds};
ghost use Rattle.meaning_runs.specs.Words.{Slot};

/// Brings the laws into the check.
#[tactic(auto, using(crate::proofs::Tasks::unfolds, crate::proofs::Restricted::restricted, crate::proofs::Acting::acts_go_by, crate::proofs::Sharing::runs_are_naive, crate::proofs::Counted::counted, crate::proofs::Soundness::determinate, crate::proofs::Composed::acts_are_naive, crate::proofs::Examples::words_in_order))]
pub fn law(number: u8) -> u8
    ensures { result ≡ number }
{
    number
}
