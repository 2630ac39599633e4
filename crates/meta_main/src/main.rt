//! `metad`: a server of live objects in isolated sessions. It reads commands from standard input and writes
//! the sessions' answers to standard output, one JSON object a line. For the slice of a session it writes
//! the input lines that can affect the session's answers instead.
#![tactic(auto)]

ghost use Rattle.command_line.specs.Clamp.{Clamps, IsNumber};
ghost use Rattle.command_line.specs.Count.{Counts};

use command_line::{
    Beginning, add_count, clamp_answer, count_answer, reserve_stack, start, with_clamp,
};
use server_world::Server;
use std::alloc::{AllocError, Global};
use std::hash::RandomState;
use std::process::ExitCode;
use stored_slots::Functors;
use term_core::Action;
use variant_value::Value;
use wire_lines::{Counted, RunFault, Summary, run, run_slice, status_of};

fn main(rt: HostRuntime) -> ExitCode {
    if reserve_stack(rt.alloc()).is_err() {
        return end_of_run(&rt, &Err(RunFault::Memory));
    }
    match start(&rt) {
        Ok(beginning) => end_of_run(&rt, &serve(&rt, beginning)),
        Err(ending) => {
            let mut output = Counted::new(rt.stdout());
            let mut error = Counted::new(rt.stderr());
            ExitCode::from(ending.say(&mut output, &mut error))
        }
    }
}

/// Makes the functors of the program and runs with them: `clamp`, whose closure captures the bounds that it keeps a
/// number between, and `count`.
fn serve(rt: &HostRuntime, beginning: Beginning) -> Result<Summary, RunFault> {
    let (least, most) = (0, 100);
    let Ok(clamp) = Box::new(
        rt.alloc(),
        move |alloc: Global, found: u64, args: &[Value]| -> Result<(Vec<Action>, u64), AllocError>
            requires { IsNumber args.now }
            ensures { Clamps least most found args.now result }
        { clamp_answer(alloc, least, most, found, args) },
    ) else {
        return Err(RunFault::Memory);
    };
    let Ok(mut functors) = with_clamp(rt.alloc(), least, most, clamp) else {
        return Err(RunFault::Memory);
    };
    let Ok(count) = Box::new(
        rt.alloc(),
        |alloc: Global, found: u64, args: &[Value]| -> Result<(Vec<Action>, u64), AllocError>
            ensures { Counts found args.now result }
        { count_answer(alloc, found, args) },
    ) else {
        return Err(RunFault::Memory);
    };
    if add_count(rt.alloc(), &mut functors, least, most, count).is_err() {
        return Err(RunFault::Memory);
    }
    run_with(rt, beginning, functors)
}

/// Reads standard input to its end, and writes the sessions' answers to standard output, or for the slice
/// of a session the input lines that can affect its answers.
fn run_with(
    rt: &HostRuntime,
    beginning: Beginning,
    functors: Functors,
) -> Result<Summary, RunFault> {
    let Beginning {
        classes,
        turns,
        slice,
    } = beginning;
    // Without random keys there is no server: a client could choose names that make it slow.
    let Ok(hashing) = RandomState::new(rt) else {
        return Err(RunFault::Read);
    };
    let Ok(mut server) = Server::new(rt.alloc(), classes, functors, turns, hashing) else {
        return Err(RunFault::Memory);
    };
    let mut reader = Counted::new(rt.stdin());
    let mut writer = Counted::new(rt.stdout());
    match slice {
        Some(session) => run_slice(rt.alloc(), &mut reader, &mut writer, &mut server, &session),
        None => run(rt.alloc(), &mut reader, &mut writer, &mut server),
    }
}

/// Reports how a run failed, if it did, and returns the exit status.
fn end_of_run(rt: &HostRuntime, run: &Result<Summary, RunFault>) -> ExitCode {
    let (status, complaint) = status_of(run);
    if let Some(text) = complaint {
        // A failure to write this is ignored.
        let _ = eprintln!(rt; "{text}");
    }
    ExitCode::from(status)
}
