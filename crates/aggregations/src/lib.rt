//! Aggregations: for each of them and each key, a value made from the arguments that came.
#![tactic(auto)]

mod entries;
mod function;
mod held;
mod histogram;
pub mod laws;
mod linear_range;
mod partial;
mod scale;
mod slot;
mod table;
mod word_key;

pub use function::AggFn;
pub use histogram::Histogram;
pub use linear_range::{LinearRange, MAX_LEVELS, MAX_STEP};
pub use partial::Partial;
pub use scale::Scale;
pub use table::AggTable;
pub use word_key::WordKey;
