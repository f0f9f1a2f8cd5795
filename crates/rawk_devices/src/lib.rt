//! Sources and sinks of bytes.
#![tactic(auto)]

mod bytes_sink;
mod bytes_source;
mod sink;
mod source;
mod std_sink;
mod std_source;

pub use bytes_sink::BytesSink;
pub use bytes_source::BytesSource;
pub use sink::{Sink, write_all};
pub use source::{DeviceFault, Ending, Source};
pub use std_sink::StdSink;
pub use std_source::StdSource;
