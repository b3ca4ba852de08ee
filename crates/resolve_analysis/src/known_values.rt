//! What is known before anything is evaluated: the texts that words give, settings and folders.
use evaluate_context::Settings;
use just_text::{Number, Text};
use std::collections::BTreeMap;

/// What is known before anything is evaluated.
#[derive(Drop)]
pub struct KnownValues {
    /// The texts that words give for variables.
    pub overrides: BTreeMap<Number, String>,
    /// The values of each module's settings.
    pub settings: Vec<Settings>,
    /// The folder of each module's file.
    pub folders: Vec<Text>,
}
