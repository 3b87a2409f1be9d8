//! The values that D programs compute with, and the keys of their tables.
#![tactic(auto)]

mod arithmetic;
mod bytes;
mod clause_locals;
mod comparison;
mod held;
mod int_type;
mod key;
pub mod laws;
mod operators;
mod promotion;
mod shifts;
mod text;
mod thread_table;
mod value;
mod variable;
mod word;

pub use arithmetic::{OutOfZero, binary};
pub use bytes::split_at_first;
pub use clause_locals::ClauseLocals;
pub use comparison::{compare, compare_text};
pub use held::Held;
pub use int_type::{DType, IntType};
pub use key::{Key, KeyPart};
pub use operators::{ArithmeticOperator, ComparisonOperator, ShiftOperator};
pub use promotion::{common, promotion_of};
pub use shifts::shift;
pub use text::{Text, join_text};
pub use thread_table::ThreadTable;
pub use value::{Kind, Value, ValueRef};
pub use variable::Var;
pub use word::{complement, convert, negate};
