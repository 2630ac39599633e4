//! The start of the program: the command line, and then the classes.
ghost use Rattle.std.specs.Prelude.{IfErr, map};
ghost use Rattle.command_line.specs.Asked.{asked};
ghost use Rattle.command_line.specs.Start.{Starts, StartsByProcess, SaysNoWords, files};

use crate::beginning::Beginning;
use crate::class_file::classes_at;
use crate::class_files::ClassFiles;
use crate::command_line::CommandLine;
use crate::ending::Ending;
use crate::options::{OptionsError, options_of};
use std::alloc::AllocError;
use std::convert::AsStr;
use std::env;
use std::env::Env;
use std::io::ErrorKind;

/// Finds what the program is to run with, or how it ends where there is no run: by the command line, and then
/// by the class file that it names.
pub fn start<R: ClassFiles + CommandLine + AllocGlobal>(rt: &R) -> Result<Beginning, Ending>
    ensures { StartsByProcess (R.given rt.now) (files (R.holds rt.now) (R.readable rt.now)) result }
{
    let words = rt.words()?;
    start_with(rt, words.as_slice())
}

/// The words of the command line of the process, without the program's name.
pub fn words_of<R: Env + AllocGlobal>(rt: &R) -> Result<Vec<String>, Ending>
    ensures { IfErr result (λ ending. SaysNoWords ending) }
{
    let words = match env::args(rt) {
        Ok(words) => words,
        Err(error) if error.kind() == ErrorKind::OutOfMemory => {
            return Err(Ending::out_of_memory());
        }
        Err(_) => return Err(Ending::no_utf_8()),
    };
    match words.skip(1).collect(rt.alloc()) {
        Ok(words) => Ok(words),
        Err(AllocError) => Err(Ending::out_of_memory()),
    }
}

/// Finds what the program is to run with, or how it ends, by these words of a command line.
pub fn start_with<R: ClassFiles + AllocGlobal, S: AsStr>(
    rt: &R,
    words: &[S],
) -> Result<Beginning, Ending>
    ensures { Starts (files (R.holds rt.now) (R.readable rt.now)) (asked (map S.text words.now)) result }
{
    let alloc = rt.alloc();
    let options = match options_of(alloc, words) {
        Ok(options) => options,
        Err(OptionsError::Words(refusal)) => return Err(Ending::of_words(alloc, &refusal)),
        Err(OptionsError::SessionName) => return Err(Ending::bad_session_name()),
    };
    let path = options.classes.as_ref().map(|path| path.as_str());
    match classes_at(rt, path) {
        Ok(classes) => Ok(Beginning {
            classes,
            turns: options.turns,
            slice: options.slice,
        }),
        Err(error) => Err(Ending::of_class_file(alloc, &error)),
    }
}
