//! The bytes of a D script, cut into tokens. `docs/GRAMMAR.md` has the rules.
#![tactic(auto)]

mod byte_kinds;
mod byte_string;
mod closing_slash;
mod fault;
mod front;
pub mod laws;
mod mark_table;
mod number;
mod option_line;
mod place;
mod position;
mod scanner;
mod text_constant;
mod token;
mod words;

pub use byte_string::ByteString;
pub use fault::{LexFault, MAX_BYTES};
pub use scanner::lex;
pub use token::{Mark, Suffix, Token, TokenKind};
