//! How the keys of tables are hashed, so that whoever writes a trace can't choose keys of one hash,
//! and a comparison of bytes by words.
#![tactic(auto)]

mod hash_key;
mod same;

pub use hash_key::{HashKey, KeyedHasher, mix};
pub use same::{is_same, word_at};
