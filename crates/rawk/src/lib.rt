//! AWK over whole numbers: runs, sessions, their reports, and settings.
#![tactic(auto)]

mod debugging;
mod dialog;
mod in_memory;
mod preparing;
mod report;
mod running;
mod stage;

pub use debugging::{debug, debug_from, debug_with};
pub use rawk_code::Settings;
pub use rawk_devices::{BytesSink, BytesSource, DeviceFault, Sink, Source, StdSink, StdSource};
pub use rawk_options::{Invocation, S, Text, settings_of};
pub use rawk_syntax::RefusalKind;
pub use rawk_value::Fault;
pub use report::{Cause, Report};
pub use running::{Finished, run, run_from};
