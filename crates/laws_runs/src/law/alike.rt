//! Runs of calls whose steps go alike.
ghost use Rattle.std.specs.Prelude.{◌≡◌};
ghost use Rattle.laws_runs.specs.Alike.Alike.{RunsAlike};

/// Brings the laws into the check: where steps go alike under other names, a run is one there, counted where it is; runs of ranked calls are counted; and steps that may be cut go alike.
#[tactic(auto, using(crate::proofs::Alike::Runs::runs_alike, crate::proofs::Alike::Runs::counted_there, crate::proofs::Alike::Counted::counted, crate::proofs::Alike::Counted::counted_of, crate::proofs::Alike::Cut::cut_alike, crate::proofs::Alike::Cut::cut_ranked))]
pub fn law(number: u8) -> u8
    ensures { result ≡ number }
{
    number
}
