//! From the arguments of a program, a script and a trace to bytes on its streams: what every
//! program that replays a script does, whatever the layout of its answers.
#![tactic(auto)]

mod arguments;
mod bundle;
mod consumer;
mod consuming;
mod ending;
mod files;
mod grouping;
mod intake;
pub mod laws;
mod line;
mod plan;
mod program;
mod reason;
mod refusal;
mod replaying;
mod scripts;

pub use arguments::{Help, Request, UsageFault, read_words};
pub use bundle::{Division, divide};
pub use consumer::Consumer;
pub use consuming::ConsumeFault;
pub use files::{ScriptFiles, SystemFiles};
pub use grouping::groups_of;
pub use plan::{EngineKind, GroupPlan, Plan, Replayed};
pub use program::Streams;
pub use refusal::{Refusal, refusal_status, refusal_text};
pub use scripts::read_script;
