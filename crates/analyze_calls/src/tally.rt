//! How often calls are met and entered.
ghost use Rattle.std.specs.Prelude.{◌≡◌, ◌≤◌};
ghost use Rattle.analyze_calls.specs.Runs.Tallies.{entered_one, met_one};

/// How often a run met a call, and how often one that was not done. Each number stays at its greatest
/// value.
#[derive(Clone, Copy, Debug, Drop, PartialEq, Eq)]
pub struct Tally {
    /// The calls that were met.
    pub calls: u64,
    /// Those of them that were not done, and so were entered.
    pub entered: u64,
}

impl Tally {
    /// Nothing was met.
    pub fn new() -> Tally
        ensures { result ≡ record { calls = 0; entered = 0 } }
    {
        Tally {
            calls: 0,
            entered: 0,
        }
    }

    /// A call more was met.
    pub fn meet(&mut self)
        ensures met { self.new ≡ met_one self.old }
        ensures grown { self.old.calls ≤ self.new.calls }
    {
        self.calls = self.calls.saturating_add(1);
    }

    /// A call more was entered.
    pub fn enter(&mut self)
        ensures entered { self.new ≡ entered_one self.old }
        ensures grown { self.old.entered ≤ self.new.entered }
    {
        self.entered = self.entered.saturating_add(1);
    }
}
