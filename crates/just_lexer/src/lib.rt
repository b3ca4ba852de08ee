//! From a source to its tokens, and the line of a source that a token stands on, with marks under the token.
#![tactic(auto)]

pub mod excerpt;
mod fault;
pub mod lexer;
mod line;
mod mode;
mod position;
mod quotes;
mod repeated;
mod scan;
mod width;

pub use excerpt::Excerpt;
pub use lexer::Lexer;
