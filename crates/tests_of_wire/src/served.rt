//! Whole runs, each on a server of its own, with devices that give, take or fail as a test wants. The functions
//! here have no contracts, since the tests look only at what the runs did.
use crate::fakes::{SlowSink, SlowSource, hashing};
use crate::functors::starving_server;
use crate::lines::lamps;
use crate::sessions::clamping_server;
use plain_types::Text;
use server_world::Server;
use std::alloc::{AllocError, Global};
use stored_slots::Functors;
use wire_lines::{RunFault, Summary, run, run_bounded, run_slice};

/// The turns of a command if the command line does not set them.
pub const TURNS: u32 = 10_000;

/// The servers that are run: one with the classes of lamps and no functors, the program's, and one with a
/// functor that finds no memory.
pub enum Host {
    Lamps,
    Program,
    Starving,
}

fn server_of(alloc: Global, host: Host) -> Result<Server, AllocError> {
    match host {
        Host::Lamps => Server::new(
            alloc,
            lamps(alloc)?,
            Functors::new(alloc),
            TURNS,
            hashing()?,
        ),
        Host::Program => clamping_server(alloc),
        Host::Starving => starving_server(alloc),
    }
}

/// How a run is made: to the end of its input, within bounds of lines and of calls of `read`, or for the slice of
/// the session `b`.
#[derive(Clone, Copy)]
pub enum Way {
    Whole,
    Within(u64, u64),
    SliceOfB,
}

/// How a run ended, what it had written by then, how often its devices failed, and whether memory was refused.
#[derive(Drop)]
pub struct Outcome {
    ended: Result<Summary, RunFault>,
    written: Vec<u8>,
    failures: u64,
    memory_refused: bool,
}

impl Outcome {
    pub fn is(&self, ended: Result<Summary, RunFault>, written: &[u8]) -> bool {
        let failed = matches!(ended, Err(RunFault::Read | RunFault::Write));
        self.ended == ended
            && self.written.as_slice() == written
            && self.failures == u64::from(failed)
            && !self.memory_refused
    }

    /// Whether the run ended with this fault after it had written a prefix of these bytes.
    pub fn breaks_off(&self, fault: RunFault, whole: &[u8]) -> bool {
        whole.starts_with(&self.written) && self.is(Err(fault), &self.written)
    }

    /// Whether the run finished and wrote these lines, and whether memory was refused is as given.
    pub fn tells(&self, lines: &str, memory_refused: bool) -> bool {
        let Ok(summary) = &self.ended else {
            return false;
        };
        summary.memory_refused == memory_refused
            && self.written.as_slice().trim_ascii_end() == lines.trim_end().as_bytes()
    }
}

fn end_of_run(
    alloc: Global,
    reader: &mut SlowSource<'_>,
    writer: &mut SlowSink,
    server: &mut Server,
    way: Way,
) -> Result<Summary, RunFault> {
    match way {
        Way::Whole => run(alloc, reader, writer, server),
        Way::Within(max_lines, max_reads) => {
            run_bounded(alloc, reader, writer, server, max_lines, max_reads)
        }
        Way::SliceOfB => {
            let session = Text::from_str(alloc, "b")?;
            run_slice(alloc, reader, writer, server, &session)
        }
    }
}

/// How a run with a server of its own ends, and whether memory was refused.
fn end_of_fresh_run(
    alloc: Global,
    host: Host,
    reader: &mut SlowSource<'_>,
    writer: &mut SlowSink,
    way: Way,
) -> Result<(Result<Summary, RunFault>, bool), AllocError> {
    let mut server = server_of(alloc, host)?;
    let ended = end_of_run(alloc, reader, writer, &mut server, way);
    Ok((ended, server.memory_refused()))
}

/// Returns the outcome of a run that is made in this way.
pub fn outcome_by(
    alloc: Global,
    host: Host,
    mut reader: SlowSource<'_>,
    mut writer: SlowSink,
    way: Way,
) -> Result<Outcome, AllocError> {
    let (ended, memory_refused) = end_of_fresh_run(alloc, host, &mut reader, &mut writer, way)?;
    Ok(Outcome {
        ended,
        written: writer.received,
        failures: reader.failures.saturating_add(writer.failures),
        memory_refused,
    })
}

pub fn outcome_of(
    alloc: Global,
    host: Host,
    reader: SlowSource<'_>,
    writer: SlowSink,
) -> Result<Outcome, AllocError> {
    outcome_by(alloc, host, reader, writer, Way::Whole)
}

/// Returns the outcome of a run whose first read gives the whole input, up to 65,536 bytes.
pub fn answers(alloc: Global, host: Host, input: &str) -> Result<Outcome, AllocError> {
    let source = SlowSource::new(input.as_bytes(), 65_536, 0);
    outcome_of(alloc, host, source, SlowSink::new(alloc, 7, 0, 0))
}
