//! Where bytes come from and where they go: sources and sinks that may fail at any call. And the gate before a worker's steps.
//! A contract sees of each end the bytes that it has left or has taken, where it tells them, and a count
//! of its faults that never falls. So a failure is always somebody's: an answer that speaks of one
//! comes only where the count of that end rose.
#![tactic(auto)]

mod calls;
mod gate;
mod mem_sink;
mod mem_source;
mod reading;
mod sink;
mod source;
mod std_sink;
mod std_source;
mod writing;

pub use gate::{Gate, GateStep, OpenGate};
pub use mem_sink::MemSink;
pub use mem_source::MemSource;
pub use reading::{ReadAll, read_all};
pub use sink::Sink;
pub use source::{Failed, Source};
pub use std_sink::StdSink;
pub use std_source::StdSource;
pub use writing::{WriteFault, write_all};

#[cfg(test)]
mod tests;
