//! The parser and the formatter: texts as programs, and programs as texts.

#![tactic(auto)]

pub mod canonical;
pub mod cursor;
pub mod error;
pub mod expression_text;
pub mod expressions;
pub mod laws;
pub mod lexer;
pub mod lists;
pub mod parser;
pub mod place;
pub mod programs;
pub mod statements;
pub mod token;

pub use canonical::{format, listing};
pub use error::SyntaxError;
pub use parser::parse;
pub use place::TextPlace;
