//! Runs of a server over bytes: lines are read from a source, the server answers each, and the output is written to
//! a sink. A run ends with an exit status and a message.
#![tactic(auto)]

mod buffer;
mod fault;
mod limits;
mod lines;
mod output;
mod slice;
mod status;
mod stream;

pub use fault::RunFault;
pub use limits::limits_of_runs_are_these;
pub use slice::run_slice;
pub use status::status_of;
pub use stream::{Summary, run, run_bounded};
pub use wire_format::{
    Counted, Failed, LINE_BYTES, LineFault, ReadError, Sink, Source, line_text, read_line,
};
