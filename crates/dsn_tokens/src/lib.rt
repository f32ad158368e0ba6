//! The tokens of a text in the design language: brackets and words, each with its offset.
//! The spelling is that of the SPECCTRA reference, with comment lines and one quoting byte at a time.
#![tactic(auto)]

mod context;
mod fronts;
mod laws;
mod lexer;
mod text;
mod token;

pub use context::{Context, Line};
pub use laws::{each_read, one_reading};
pub use lexer::Lexer;
pub use text::Text;
pub use token::{Mark, Token, TokenFault};
