//! Laws, by what they are about.
pub mod compiled;
pub mod definitions;
pub mod files;
pub mod matching;
pub mod modules;
pub mod names;
pub mod references;
pub mod submodules;
