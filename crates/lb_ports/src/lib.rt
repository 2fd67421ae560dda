//! Where bytes come from and where they go: sources and sinks that count their faults. And the gate that workers pass.
#![tactic(auto)]

mod gate;
mod memory_sink;
mod memory_source;
mod ports;
mod std_sink;
mod std_source;
mod whole;

pub use gate::{Gate, OpenGate};
pub use memory_sink::MemorySink;
pub use memory_source::MemorySource;
pub use ports::{Failed, Sink, Source};
pub use std_sink::StdSink;
pub use std_source::StdSource;
pub use whole::{ReadAllFault, WriteFault, read_all, write_all};
