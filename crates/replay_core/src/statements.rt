//! Runs of a clause: its predicate and its statements. `docs/MEANING.md` says what they make.

mod clause;
mod expression;
mod objects;
mod printing;
mod statement;
mod trees;

pub(crate) use clause::run_clause;
pub use printing::{printf_text, trace_line};
