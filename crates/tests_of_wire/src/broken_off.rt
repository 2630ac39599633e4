//! Runs that end before their input does: at a call of a device that fails, and at their bounds.
use crate::fakes::{SlowSink, SlowSource};
use crate::runs::{LAMP, LAMP_TOLD, counted};
use crate::served::{Host, Way, outcome_by};
use crate::slices::{GIVEN, GIVEN_BY_B};
use std::alloc::{AllocError, Global};
use std::test::Fail;
use wire_lines::{RunFault, Summary};

/// `b` joins what `a` publishes, and its slot is called when it takes its events.
const TOLD_OF_TEMP: &str = r#"{"class":"Cell","do":"new","session":"a"}
{"class":"Cell","do":"new","session":"b"}
{"do":"join","from":"a","method":"seen(int)","name":"temp","object":1,"session":"b","types":["int"]}
{"do":"publish","name":"temp","object":1,"session":"a","signal":"xChanged(int)"}
{"do":"set","object":1,"property":"x","session":"a","value":7}
{"do":"spin","session":"b"}
{"do":"get","object":1,"property":"x","session":"a"}
"#;

const TEMP_TOLD: &str = r#"{"reply":1,"session":"a"}
{"reply":1,"session":"b"}
{"reply":true,"session":"b"}
{"reply":true,"session":"a"}
{"reply":true,"session":"a"}
{"args":[7],"call":"seen(int)","object":1,"sender":0,"session":"b"}
{"reply":{"events":1,"left":0,"lost":0,"mismatched":0},"session":"b"}
{"reply":7,"session":"a"}
"#;

/// Lines, how many they are, how they are run, and what is written.
type Session = (&'static str, u64, Way, &'static str);

const SESSIONS: [Session; 3] = [
    (LAMP, 3, Way::Whole, LAMP_TOLD),
    (TOLD_OF_TEMP, 7, Way::Whole, TEMP_TOLD),
    (GIVEN, 10, Way::SliceOfB, GIVEN_BY_B),
];

/// A fault at a call: the source fails, the sink fails, or the sink takes nothing.
#[derive(Clone, Copy)]
enum Trouble {
    Reading,
    Writing,
    Idling,
}

/// Makes the devices. Each moves at most `at_once` bytes a call, and one has trouble at a call.
fn devices<'a>(
    alloc: Global,
    input: &'a str,
    at_once: usize,
    trouble: Trouble,
    call: u32,
) -> (SlowSource<'a>, SlowSink) {
    let (reading, writing, idling) = match trouble {
        Trouble::Reading => (call, 0, 0),
        Trouble::Writing => (0, call, 0),
        Trouble::Idling => (0, 0, call),
    };
    let source = SlowSource::new(input.as_bytes(), at_once, u64::from(reading));
    (source, SlowSink::new(alloc, at_once, writing, idling))
}

/// How many calls a session's run makes if trouble at each of them breaks it off. It is `None` if the run ends in any
/// other way.
fn breaks_off(
    alloc: Global,
    session: &Session,
    at_once: usize,
    trouble: Trouble,
) -> Result<Option<u32>, AllocError> {
    let whole = session.3.as_bytes();
    let fault = match trouble {
        Trouble::Reading => RunFault::Read,
        Trouble::Writing | Trouble::Idling => RunFault::Write,
    };
    for before in 0..2_000 {
        let (source, sink) = devices(alloc, session.0, at_once, trouble, before + 1);
        let outcome = outcome_by(alloc, Host::Program, source, sink, session.2)?;
        if outcome.is(counted(session.1), whole) {
            return Ok(Some(before));
        }
        if !outcome.breaks_off(fault, whole) {
            return Ok(None);
        }
    }
    Ok(None)
}

/// How many calls each session makes, by bytes a call and kind of trouble. The first session reads 184 bytes and writes
/// 86, the second 410 and 303. Its output is written before the next read, in calls of its own. The last reads 602 bytes,
/// and writes its slice of 309 bytes at the end. One more read finds the end of the input.
const CALLS: [(usize, Trouble, [u32; 3]); 6] = [
    (1, Trouble::Reading, [185, 411, 603]),
    (1, Trouble::Writing, [86, 303, 309]),
    (1, Trouble::Idling, [86, 303, 309]),
    (7, Trouble::Reading, [28, 60, 87]),
    (7, Trouble::Writing, [14, 47, 45]),
    (7, Trouble::Idling, [14, 47, 45]),
];

fn break_off(
    alloc: Global,
    at_once: usize,
    trouble: Trouble,
    calls: &[u32],
) -> Result<bool, AllocError> {
    for (session, wanted) in SESSIONS.iter().zip(calls) {
        if breaks_off(alloc, session, at_once, trouble)? != Some(*wanted) {
            return Ok(false);
        }
    }
    Ok(true)
}

#[test]
fn runs_break_off_at_any_call(rt: HostRuntime) -> Result<(), Fail> {
    for (at_once, trouble, calls) in CALLS {
        let breaks_off = break_off(rt.alloc(), at_once, trouble, &calls)?;
        assert!(rt; breaks_off, "{at_once} at once");
    }
    Ok(())
}

/// A line after two blank ones, which are skipped.
const NEW_BEHIND_BLANKS: &str =
    "\n \t\r\n{\"class\":\"QObject\",\"do\":\"new\",\"session\":\"a\"}\n";

/// Lines that the first call gives all at once; how many lines and calls there may be; how the run ends, and how many
/// bytes it has written then.
type Case = (&'static str, u64, u64, Result<Summary, RunFault>, usize);

const ENDLESS: Result<Summary, RunFault> = Err(RunFault::Endless);

/// Whether a run ends as its case says.
fn ends_within(alloc: Global, case: &Case) -> Result<bool, AllocError> {
    let source = SlowSource::new(case.0.as_bytes(), 65_536, 0);
    let sink = SlowSink::new(alloc, 7, 0, 0);
    let way = Way::Within(case.1, case.2);
    let outcome = outcome_by(alloc, Host::Lamps, source, sink, way)?;
    let Some(written) = LAMP_TOLD.as_bytes().get(..case.4) else {
        return Ok(false);
    };
    Ok(outcome.is(case.3, written))
}

#[test]
fn runs_end_at_their_bounds(rt: HostRuntime) -> Result<(), Fail> {
    for case in [
        (LAMP, 0, 2, ENDLESS, 0),
        (LAMP, 2, 2, ENDLESS, 55),
        (LAMP, 3, 2, counted(3), 86),
        (LAMP, 3, 1, ENDLESS, 86),
        (LAMP, 3, 0, ENDLESS, 0),
        (NEW_BEHIND_BLANKS, 2, 2, ENDLESS, 0),
        (NEW_BEHIND_BLANKS, 3, 2, counted(3), 26),
    ] {
        let ends = ends_within(rt.alloc(), &case)?;
        assert!(rt; ends, "{} lines, {} reads", case.1, case.2);
    }
    Ok(())
}
