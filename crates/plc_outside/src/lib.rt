//! Files and sinks as the program is handed them: two traits, `Files` and `Sink`, that say which
//! answers a caller has to reckon with and what each of them means.
//!
//! Each trait has ghost members for what no program can see: the content under a name, how often a
//! read of it failed, which bytes a sink took so far. Where an implementation tells the contents, as those
//! in memory do, the contracts pin every answer; where it does not, as with the files of the system,
//! they still say that each fault has a cause. Which reads gave which bytes, and which bytes a sink took, is
//! noted by each of them, also by those of the system. So one program is proved for both, and only the
//! edge, `RealFiles` and `OutSink`, is trusted. It stands on `plc_base` for running out of memory.
//!
//! The layer above uses `Files::read` and `write_text`, which writes a whole text by as many calls
//! of `Sink::put` as the sink wants: `Ok` appends the text, `Err` a proper prefix of it.
#![tactic(auto)]

mod failures;
mod files;
mod fixed_sink;
mod honest;
mod host;
mod memory;
mod memory_sinks;
mod readings;
mod real;
mod sinks;
mod taken;
mod words;
mod writing;

pub use files::{FileFault, Files};
pub use fixed_sink::FixedSink;
pub use honest::HonestFiles;
pub use host::{Host, host_of};
pub use memory::MemFiles;
pub use memory_sinks::{FailSink, VecSink};
pub use real::{OutSink, RealFiles};
pub use sinks::{Sink, SinkFault};
pub use words::WordsFault;
pub use writing::write_text;
