//! Settings and rows of modules.
ghost use Rattle.laws_runs.specs.Settings.Rows.{RowsStand};
ghost use Rattle.laws_runs.specs.Settings.Settled.{SettingsStand};

use std::collections::BTreeMap;

/// What the settings of modules are set to is what stands for their expressions by names.
pub fn settings_stand(overrides: &BTreeMap<u64, String>)
    ensures { SettingsStand overrides.now }
{}

/// A module has just the row that it has in the world.
pub fn rows_stand()
    ensures { RowsStand }
{}
