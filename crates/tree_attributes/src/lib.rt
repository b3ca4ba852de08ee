//! Attributes and settings as trees, their printed texts, and the arguments that attributes take.
#![tactic(auto)]

mod argument_form;
mod arguments;
mod attribute;
mod attribute_item;
mod attribute_set;
mod indentation;
mod item_kind;
mod kinds;
pub mod law;
mod make;
mod numbering;
mod printed_arguments;
mod rows;
mod setting;
mod systems;
mod truth_setting;

pub use argument_form::ArgumentForm;
pub use arguments::AttributeArguments;
pub use attribute::{ArgumentOptions, Attribute, AttributeKind, LongName};
pub use attribute_item::AttributeItem;
pub use attribute_set::AttributeSet;
pub use indentation::{Indentation, InvalidIndentation};
pub use item_kind::ItemKind;
pub use kinds::kind_from_name;
pub use make::{with_expressions, with_options, with_strings, without_arguments};
pub use printed_arguments::PrintedArguments;
pub use rows::{Elements, Strings};
pub use setting::{Interpreter, Setting};
pub use systems::{is_private, may_carry};
pub use truth_setting::TruthSetting;
