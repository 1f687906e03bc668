//! The outside as traits: where bytes come from and where they go, with a count of faults, and their forms in memory.
#![tactic(auto)]

mod calls;
mod edge;
mod sink;
mod source;
mod sure;
#[cfg(test)]
mod tests;

pub use edge::{Failed, Sink, SinkFault, Source};
pub use sink::MemSink;
pub use source::MemSource;
pub use sure::{SureSink, SureSource};
