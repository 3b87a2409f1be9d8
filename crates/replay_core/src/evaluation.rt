//! The plain evaluator of typed expressions. `docs/MEANING.md` says what it computes.

mod built_in;
mod expression;
mod fault;
mod operators;
mod values;
mod variables;

pub(crate) use expression::{evaluate, evaluate_key};
pub(crate) use fault::EvalFault;
pub(crate) use values::{bytes_in, word_in};
