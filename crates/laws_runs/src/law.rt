//! Laws, by what they are about.
pub mod alike;
pub mod by_name;
pub mod defined;
pub mod menus;
pub mod paths;
pub mod resolved;
pub mod running;
pub mod settings;
pub mod steady;
pub mod tables;
pub mod views;
pub mod words;
