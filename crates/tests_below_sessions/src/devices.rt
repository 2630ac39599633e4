//! Sources and sinks by themselves.
use crate::fakes::Troubled;
use std::alloc::Global;
use std::io::ErrorKind;
use wire_format::{Counted, Failed, Sink, Source, write_all};

/// A call of a device answers its result, and how often the device has failed then.
type Answer = (Result<usize, Failed>, u64);

/// Whether a slice gives its bytes, two of them a call, and then none.
fn slice_gives_its_bytes() -> bool {
    let text: &[u8] = b"abc";
    let mut source = Counted::new(text);
    let mut buffer = [0; 2];
    for (wanted, front) in [(2, *b"ab"), (1, *b"cb"), (0, *b"cb")] {
        let count = source.read(&mut buffer);
        if count != Ok(wanted) || buffer != front {
            return false;
        }
    }
    source.failures() == 0
}

fn takes_all(sink: &mut Counted<Vec<u8>>) -> bool {
    for part in [b"ab".as_slice(), b"", b"c"] {
        if write_all(sink, part).is_err() {
            return false;
        }
    }
    sink.failures() == 0
}

/// Whether a vector takes all bytes, in their order.
fn vector_takes_bytes(alloc: Global) -> bool {
    let mut sink = Counted::new(Vec::new(alloc));
    let is_taken = takes_all(&mut sink);
    is_taken && sink.into_inner().as_slice() == b"abc".as_slice()
}

#[test]
fn slices_and_vectors_move_their_bytes(rt: HostRuntime) {
    assert!(rt; slice_gives_its_bytes());
    assert!(rt; vector_takes_bytes(rt.alloc()));
}

fn read_behind(kind: ErrorKind, times: u32) -> Answer {
    let left: &[u8] = b"x";
    let mut source = Counted::new(Troubled { kind, times, left });
    (source.read(&mut [0; 4]), source.failures())
}

fn write_behind(kind: ErrorKind, times: u32) -> Answer {
    let mut sink = Counted::new(Troubled {
        kind,
        times,
        left: b"",
    });
    (sink.write(b"abcd"), sink.failures())
}

#[test]
fn only_interrupted_calls_are_made_again(rt: HostRuntime) {
    for (kind, times, wanted) in [
        (ErrorKind::Interrupted, 0, (Ok(1), 0)),
        (ErrorKind::Interrupted, 1_000, (Ok(1), 0)),
        (ErrorKind::Interrupted, 1_001, (Err(Failed), 1)),
        (ErrorKind::WouldBlock, 1, (Err(Failed), 1)),
    ] {
        assert!(rt; read_behind(kind, times) == wanted, "after {times}");
        assert!(rt; write_behind(kind, times) == wanted, "after {times}");
    }
}

#[test]
fn a_sink_that_is_full_goes_on(rt: HostRuntime) {
    let mut room = [0; 2];
    let mut full = Counted::new(&mut room[..]);
    for (bytes, failures) in [(b"abc".as_slice(), 1), (b"", 1)] {
        let written = write_all(&mut full, bytes);
        assert!(rt; written.is_err() == (bytes.len() == 3) && full.failures() == failures);
    }
}
