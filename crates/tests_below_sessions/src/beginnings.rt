//! Class files that cannot be read.
use crate::fakes::Troubled;
use command_line::{ClassFileError, classes_of};
use std::alloc::Global;
use std::io::ErrorKind;
use wire_format::Counted;

const LAMP: &str = r#"{"classes":[{"name":"Lamp","super":"QObject"}]}"#;

/// Why a file whose reads fail so often at first gives no classes.
fn refusal_behind(alloc: Global, kind: ErrorKind, times: u32) -> Option<ClassFileError> {
    let left = LAMP.as_bytes();
    let file = Counted::new(Troubled { kind, times, left });
    classes_of(alloc, Some(file)).err()
}

#[test]
fn files_that_cannot_be_read_are_told_so(rt: HostRuntime) {
    let unreadable = Some(ClassFileError::Unreadable);
    for (kind, times, wanted) in [
        (ErrorKind::Interrupted, 1_000, None),
        (ErrorKind::Interrupted, 1_001, unreadable),
        (ErrorKind::PermissionDenied, 1, unreadable),
    ] {
        assert!(rt;
            refusal_behind(rt.alloc(), kind, times) == wanted,
            "after {times}"
        );
    }
}
