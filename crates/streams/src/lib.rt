//! Streams of bytes that report what went through them: how many calls were made of them, and
//! whether one failed.
#![tactic(auto)]

pub mod faulty;
pub mod reading;
pub mod stream;
pub mod watched;
pub mod writing;

pub use reading::{ReadFault, Reading, read_block, take_next};
pub use stream::{Failed, Feed, Sink};
pub use watched::Watched;
pub use writing::{WriteFault, emit, send};
