//! The lexer of rule texts. It splits a text into tokens, each with its place and kind, or returns the text's first
//! fault.
#![tactic(auto)]

mod bytes;
mod error;
mod gap;
mod keyword;
pub mod laws;
mod lexeme;
mod lexer;
mod number;
mod reason;
mod scanner;
mod sign;
mod string_literals;
mod token;
mod word;

pub use error::LexError;
pub use lexer::lex;
pub use reason::LexReason;
pub use token::{Token, TokenKind};
