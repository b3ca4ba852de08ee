//! Laws of a run's calls, which contracts above cite.
ghost use Rattle.std.specs.Prelude.{◌≡◌};

/// Brings the laws into the check.
#[tactic(auto, using(crate::proofs::Agreement::Closed::reached_closed, crate::proofs::Agreement::Closed::reached_closed_by, crate::proofs::Agreement::Ranked::calls_ranked, crate::proofs::Agreement::Ranked::hosts_ranked, crate::proofs::Agreement::Reached::reached_fitting, crate::proofs::Agreement::Reached::reached_sound, crate::proofs::Agreement::Runs::reached_runs_mean, crate::proofs::Agreement::Runs::steady_runs_mean, crate::proofs::Agreement::Runs::opening_runs_mean, crate::proofs::Agreement::Runs::runs_are_naive, crate::proofs::Agreement::Defined::defined_listed, crate::proofs::Agreement::Defined::defined_inside, crate::proofs::Agreement::Unbound::unbound_unsound, crate::proofs::Agreement::Openings::opens_only, crate::proofs::Agreement::Openings::opens_once, crate::proofs::Agreement::Openings::pairs_answered, crate::proofs::Agreement::Steady::calls_steady, crate::proofs::Agreement::Opened::names_meant, crate::proofs::Agreement::Grounds::grounds_agree, crate::proofs::Agreement::Fitting::fitting_are_naive))]
pub fn law(number: u8) -> u8
    ensures { result ≡ number }
{
    number
}
