//! The tokens of a D script, read as a tree. `docs/GRAMMAR.md` has the grammar.
#![tactic(auto)]

mod build;
mod clause;
mod declaration;
mod description;
mod expression;
mod fault;
pub mod laws;
mod limits;
mod marks;
mod names;
mod operators;
mod parser;
mod script;
mod show;
mod statement;
mod symbols;
mod tree;
mod words;

pub use fault::ParseFault;
pub use limits::{MAX_CLAUSES, MAX_IN_A_ROW, MAX_OPEN};
pub use operators::{AssignOperator, BinaryOperator, LogicOperator, Step, UnaryOperator};
pub use parser::parse;
pub use tree::{
    Clause, Constant, Declaration, DeclaredType, Description, Expr, IntegerType, Item, Script,
    Stmt, Target, Variable,
};
