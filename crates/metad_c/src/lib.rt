//! `metad` inside a program in C. Each function of `include/metad.h` checks the pointers that it was given, and then
//! calls one of these exports.
#![tactic(auto)]

mod fixed_functors;
mod handle;
mod kept;
mod keys;
mod laws;
mod loose;
mod opening;
mod outcome;
mod output;
mod parts;
mod reading;
mod serving;

ghost use Rattle.std.specs.Prelude.{◌≡◌, None, IfErr, IfOk};
ghost use Rattle.wire_format.specs.Input.{piece_of};
ghost use Rattle.metad_c.specs.Answers.{Fetches, Serves, ServesFor, unfetched};
ghost use Rattle.metad_c.specs.Opening.{IsOpen, Opens, Stops, number_of, opened_of};

use class_table::ClassFaultKind;
pub use handle::Handle;
pub use kept::Kept;
pub use laws::law_calls;
use opening::{Stop, classes_from, opened};
pub use outcome::Outcome;
use plain_types::{Text, is_name};
use serving::{serve, serve_for};
use std::alloc::Global;

/// The result of opening a server.
#[repr(C)]
#[derive(Clone, Copy)]
pub struct Opened {
    /// 0 if the server is open, 1 if the classes are refused, 4 if there are too few random bytes, and 5 if memory
    /// ran out.
    pub status: u32,
    /// The kind of the class file's fault, from 1 to 9 as it is printed after `C0`.
    pub kind: u32,
    /// The class that is at fault, counted from 1; 0 is the file as a whole.
    pub class: u32,
}

/// Opens a server with the classes of a class file, or with the demonstration classes if the file is empty. Each
/// command has `turns` turns for the calls that it causes. The names of sessions are hashed with `keys`, 16 random
/// bytes. If the server opens, the one that the handle had before is closed.
#[unsafe(no_mangle)]
pub extern "C" fn metad_inner_open(
    alloc: Global,
    classes: &[u8],
    turns: u32,
    keys: &[u8],
    into: &mut Handle,
) -> Opened
    ensures { Opens classes.now turns keys.now into.old.loose.value into.new.loose.value result }
{
    match handle_of(alloc, classes, turns, keys) {
        Ok(handle) => {
            *into = handle;
            Opened {
                status: 0,
                kind: 0,
                class: 0,
            }
        }
        Err(stop) => stopped(stop),
    }
}

/// A handle that owns a new server with these classes and turns. The keys hash the names of its sessions.
fn handle_of(alloc: Global, classes: &[u8], turns: u32, keys: &[u8]) -> Result<Handle, Stop>
    ensures open { IfOk result (λ handle. IsOpen classes.now turns handle.loose.value) }
    ensures stopped { IfErr result (λ stop. Stops classes.now keys.now stop) }
{
    let kept = opened(alloc, classes_from(alloc, classes)?, turns, keys)?;
    let Ok(boxed) = Box::new(alloc, kept) else {
        return Err(Stop::Memory);
    };
    Ok(Handle::of(boxed))
}

/// The result of an opening that failed for this reason.
fn stopped(stop: Stop) -> Opened
    ensures { result ≡ opened_of stop }
{
    match stop {
        Stop::Classes(fault) => Opened {
            status: 1,
            kind: number_of(fault.kind),
            class: fault.class,
        },
        Stop::Keys => Opened {
            status: 4,
            kind: 0,
            class: 0,
        },
        Stop::Memory => Opened {
            status: 5,
            kind: 0,
            class: 0,
        },
    }
}

/// The number of a kind of fault.
fn number_of(kind: ClassFaultKind) -> u32
    ensures { result ≡ number_of kind }
{
    match kind {
        ClassFaultKind::NotJson => 1,
        ClassFaultKind::BadForm => 2,
        ClassFaultKind::NameTaken => 3,
        ClassFaultKind::NoSuperclass => 4,
        ClassFaultKind::BadSignature => 5,
        ClassFaultKind::DeclaredTwice => 6,
        ClassFaultKind::BadNotify => 7,
        ClassFaultKind::BadBody => 8,
        ClassFaultKind::Limit => 9,
    }
}

/// Answers a line, which is given without its end, and appends the answer to the output. Returns 0; 2 if the handle
/// has no server; 5 if there was no memory and no command is done; 6 if the command is done, but there was no
/// memory for its answer.
#[unsafe(no_mangle)]
pub extern "C" fn metad_inner_line(alloc: Global, handle: &mut Handle, line: &[u8]) -> u32
    ensures { Serves handle.old.loose.value handle.new.loose.value (piece_of line.now) result }
{
    let Some(mut kept) = handle.take(alloc) else {
        return 2;
    };
    let outcome = serve(alloc, &mut kept, line);
    *handle = Handle::of(kept);
    outcome.status()
}

/// Answers a line for this session, even if the line names another one. Returns what `metad_inner_line` does, or 3 if
/// `session` is not a name of a session.
#[unsafe(no_mangle)]
pub extern "C" fn metad_inner_line_for(
    alloc: Global,
    handle: &mut Handle,
    session: &[u8],
    line: &[u8],
) -> u32
    ensures { ServesFor handle.old.loose.value handle.new.loose.value session.now line.now result }
{
    let Ok(name) = str::from_utf8(session) else {
        return 3;
    };
    if !is_name(name) {
        return 3;
    }
    let Ok(name) = Text::from_str(alloc, name) else {
        return 5;
    };
    let Some(mut kept) = handle.take(alloc) else {
        return 2;
    };
    let outcome = serve_for(alloc, &mut kept, &name, line);
    *handle = Handle::of(kept);
    outcome.status()
}

/// Returns how many bytes of output can be fetched.
#[unsafe(no_mangle)]
pub extern "C" fn metad_inner_output_len(alloc: Global, handle: &mut Handle) -> usize
    ensures unchanged { handle.new.loose.value ≡ handle.old.loose.value }
    ensures count { result ≡ unfetched handle.old.loose.value }
{
    let Some(kept) = handle.take(alloc) else {
        return 0;
    };
    let count = kept.output.said.len();
    *handle = Handle::of(kept);
    count
}

/// Fetches as much output as there is room for, and returns how many bytes that is.
#[unsafe(no_mangle)]
pub extern "C" fn metad_inner_output(alloc: Global, handle: &mut Handle, into: &mut [u8]) -> usize
    ensures { Fetches handle.old.loose.value handle.new.loose.value into.old into.new result }
{
    let Some(mut kept) = handle.take(alloc) else {
        return 0;
    };
    let count = kept.output.fetch(into);
    *handle = Handle::of(kept);
    count
}

/// Closes the server of the handle, if it has one. Afterwards the handle has none.
#[unsafe(no_mangle)]
pub extern "C" fn metad_inner_close(alloc: Global, handle: &mut Handle)
    ensures { handle.new.loose.value ≡ None }
{
    drop(handle.take(alloc));
}
