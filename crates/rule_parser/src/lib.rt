//! The parser of rule texts: from a text's tokens to its syntax tree, each name and number with its place. It checks
//! the order of the tokens only; later crates check what the items mean.
#![tactic(auto)]

mod condition;
mod cursor;
mod error;
mod file;
mod head;
pub mod laws;
mod operator;
mod parser;
mod reader;
mod syntax;
mod what;

pub use error::ParseError;
pub use parser::parse;
pub use syntax::{
    Comparison, Expression, FieldItem, Item, Name, Number, PacketItem, ReportItem, RuleFile,
    RuleItem,
};
pub use what::{Sign, What, Word};
