//! The slice of a session: the commands of a run that can affect its answers.
use crate::lines::given;
use crate::sessions::clamping_server;
use plain_types::Text;
use server_world::{Report, Server, Tagged};
use std::alloc::{AllocError, Global};
use std::test::Fail;

/// `a` joins what `b` publishes, which then changes, and leaves before it changes again. `c` is not involved.
pub const GIVEN: &str = r#"{"class":"Cell","do":"new","session":"a"}
{"class":"Cell","do":"new","session":"b"}
{"do":"publish","name":"t","object":1,"session":"b","signal":"xChanged(int)"}
{"do":"set","object":1,"property":"x","session":"b","value":1}
{"do":"join","from":"b","method":"seen(int)","name":"t","object":1,"session":"a","types":["int"]}
{"do":"set","object":1,"property":"x","session":"b","value":2}
{"do":"leave","from":"b","method":"seen(int)","name":"t","object":1,"session":"a"}
{"do":"set","object":1,"property":"x","session":"b","value":3}
{"do":"spin","session":"a"}
{"class":"Cell","do":"new","session":"c"}
"#;

/// The lines of `b`.
pub const GIVEN_BY_B: &str = r#"{"class":"Cell","do":"new","session":"b"}
{"do":"publish","name":"t","object":1,"session":"b","signal":"xChanged(int)"}
{"do":"set","object":1,"property":"x","session":"b","value":1}
{"do":"set","object":1,"property":"x","session":"b","value":2}
{"do":"set","object":1,"property":"x","session":"b","value":3}
"#;

/// A session, and the places of the commands that its slice keeps.
type Slice = (&'static str, &'static [usize]);

const SLICES: [Slice; 4] = [
    ("a", &[0, 1, 2, 3, 4, 5, 6, 8]),
    ("b", &[1, 2, 3, 5, 7]),
    ("c", &[9]),
    ("z", &[]),
];

/// Returns the report of a server, and which commands the slice keeps. It has no contract, so that the test
/// looks only at the result.
fn kept_of(
    server: &mut Server,
    list: &[Tagged],
    session: &Text,
) -> Result<(Report, Vec<usize>), AllocError> {
    server.run_kept(list, session)
}

fn is_kept(alloc: Global, slice: &Slice) -> Result<bool, AllocError> {
    let mut list = Vec::new(alloc);
    for line in GIVEN.lines() {
        list.push(given(alloc, line)?)?;
    }
    let mut server = clamping_server(alloc)?;
    let (report, places) = kept_of(&mut server, &list, &Text::from_str(alloc, slice.0)?)?;
    let is_whole = !report.memory_refused && report.lines.len() == list.len();
    Ok(is_whole && places.as_slice() == slice.1)
}

#[test]
fn the_places_of_a_slice_are_answered(rt: HostRuntime) -> Result<(), Fail> {
    for slice in &SLICES {
        let is_kept = is_kept(rt.alloc(), slice)?;
        assert!(rt; is_kept, "{}", slice.0);
    }
    Ok(())
}
