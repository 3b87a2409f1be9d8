//! From trees to typed scripts: types, variables, and the registers that expressions need.
//! `docs/LANGUAGE.md` has the rules.
#![tactic(auto)]

mod action;
mod aggregation;
mod assignments;
mod calls;
mod checking;
mod clause;
mod constants;
mod declaration;
mod effect;
mod exits;
mod expression;
mod fault;
mod format;
mod kinds;
pub mod laws;
mod limits;
pub mod meaning;
mod needs;
mod operations;
mod targets;
mod typed;
mod typed_script;
mod variables;
mod words;

pub use aggregations::{AggFn, LinearRange};
pub use checking::check;
pub use effect::Effect;
pub use fault::TypeFault;
pub use limits::{MAX_KEYS, MAX_NEED};
pub use typed::{
    Answer, BuiltIn, Conversion, Letter, Operation, Piece, Space, TypedAggregation, TypedClause,
    TypedExpr, TypedStmt, Variable,
};
pub use typed_script::TypedScript;
pub use variables::{kind_of, var_of};
