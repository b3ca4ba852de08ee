//! Tokens of justfiles, names, numbers, and the small types that all crates share.
#![tactic(auto)]

pub mod compile_error;
pub mod count;
pub mod delimiter;
pub mod expander;
pub mod keyword;
pub mod name;
pub mod namepath;
pub mod nesting;
pub mod number;
pub mod os;
pub mod pair;
pub mod sequence;
pub mod text;
pub mod token;
pub mod token_kind;

pub use compile_error::{CompileError, CompileErrorKind};
pub use count::Count;
pub use delimiter::Delimiter;
pub use expander::{ExpandFault, Expander};
pub use keyword::Keyword;
pub use name::Name;
pub use namepath::Namepath;
pub use nesting::nesting_limit;
pub use number::{Number, Numerator};
pub use os::Os;
pub use pair::both;
pub use sequence::Sequence;
pub use text::Text;
pub use token::Token;
pub use token_kind::TokenKind;
