//! The code generator: typed scripts to programs of DIF objects.
#![tactic(auto)]

mod choices;
mod clauses;
mod compiling;
mod draft;
mod emitting;
mod exits;
mod keys;
pub mod laws;
mod operators;
mod program;
mod show;

pub use clauses::compile;
pub use program::{Action, CompiledClause, Program, TypedObject};
