//! What comes in and what goes out: sources and sinks of bytes, whose failures are counted, so that a contract can tell
//! a failure of the outside from a body that gives up.
#![tactic(auto)]

mod calls;
mod failed;
mod mem_sink;
mod mem_source;
mod reading;
mod sink;
mod source;
mod std_sink;
mod std_source;
mod writing;

pub use failed::Failed;
pub use mem_sink::MemSink;
pub use mem_source::MemSource;
pub use reading::{ReadEnd, read_all};
pub use sink::Sink;
pub use source::Source;
pub use std_sink::StdSink;
pub use std_source::StdSource;
pub use writing::{WriteFault, write_piece};
