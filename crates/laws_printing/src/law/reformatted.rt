//! What is looked at of files is the same where some stand in their formatted text.
ghost use Rattle.meaning_rules.specs.Worlds.Reformatted.{ReformattedStandAlike};

/// Where some files stand in their formatted text, a call stands for the same worlds.
pub fn reformatted_files_stand_alike()
    ensures { ReformattedStandAlike }
{}
