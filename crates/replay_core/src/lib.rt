//! What a run means and makes: which clauses a firing runs, what they make of the threads'
//! variables, and what a run over a trace collects.
#![tactic(auto)]

mod collect_fault;
mod collector;
mod evaluation;
mod lanes;
pub mod laws;
mod layout;
mod selection;
mod sorting;
mod statements;
mod workers;

pub use collect_fault::CollectFault;
pub use collector::collect;
pub use collector::whole::Whole;
pub use lanes::Lanes;
pub use lanes::compiled::{DifLane, DifLanes};
pub use lanes::engine::Engine;
pub use lanes::lane::Lane;
pub use lanes::piece::Piece;
pub use lanes::state::State;
pub use lanes::store::Store;
pub use lanes::tables::Tables;
pub use lanes::tree::{TreeLane, TreeLanes, tree_lane};
pub use lanes::word_store::Words;
pub use layout::Layout;
pub use selection::Selections;
pub use selection::clause_indices::ClauseIndices;
pub use statements::{printf_text, trace_line};
pub use workers::gate::{Gate, OpenGate};
pub use workers::run_all;
pub use workers::source::{Exits, Source};
pub use workers::until::work_until;
pub use workers::worker::work;
