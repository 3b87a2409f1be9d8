//! Hands out the numbers of groups to workers, each number to one worker.
#![tactic(auto)]

mod board;
mod board_rule;
mod claim_seat;
mod dealing;
mod fault;
mod filling;
mod groups;
mod knowledge;
pub mod laws;
mod limits;
mod listing;
mod queue;
mod queue_rule;
mod queue_seat;
mod threads;

pub use board::{ClaimBoard, Closed};
pub use claim_seat::ClaimSeat;
pub use fault::GroupFault;
pub use groups::Groups;
pub use knowledge::{BoardView, Hand, Low, QueueView};
pub use limits::{MAX_GROUPS, MAX_WORKERS};
pub use queue::GroupQueue;
pub use queue_seat::QueueSeat;
