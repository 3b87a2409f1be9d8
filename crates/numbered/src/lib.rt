//! Texts with numbers, so that values and keys are words, and tables of words.
#![tactic(auto)]

mod index_cache;
mod kept_key;
mod texts;
mod tuple;
mod word;
mod word_table;

pub use index_cache::IndexCache;
pub use texts::Texts;
pub use tuple::Tuple;
pub use word::Word;
pub use word_table::WordTable;
