//! The options that a command line gives.
ghost use Rattle.std.specs.Prelude.{◌≡◌, IfOk, false, map};
ghost use Rattle.std.specs.Option.{option_copied};
ghost use Rattle.clap.specs.Words.{FailsBy, app_of, fault_of, first_value, found_of, rule_of};
ghost use Rattle.command_line.specs.Program.{classes_rule, metad, slice_rule, turns_rule};
ghost use Rattle.command_line.specs.Asked.{AreFound, FailsByWords, Reads, ReadsWords, asked, is_named};

use clap::{Arg, ArgMatches, Command, Error, value_parser};
use plain_types::{Text, is_name};
use std::alloc::{AllocError, Global};
use std::convert::AsStr;

/// How many turns each command has for the calls that it causes, where the words do not say.
pub const DEFAULT_TURNS: u32 = 10_000;

/// The options say what the program is to do.
#[derive(Drop)]
pub struct Options {
    /// The path of the class file, exactly as given. Without one, the demonstration classes are used.
    pub classes: Option<Text>,
    /// How many turns each command has for the calls that it causes.
    pub turns: u32,
    /// The name of the session whose slice of the input is written in place of the answers.
    pub slice: Option<Text>,
}

/// Why there are no options.
#[derive(Drop)]
pub enum OptionsError {
    /// A word asks for help, the words hold a mistake, or memory ran out.
    Words(Error),
    /// The name given by `--slice` is not a valid session name.
    SessionName,
}

/// The options that the words of a command line give. The words do not include the program's name,
/// which error messages give as `metad`. The turns are given by `--turns N` or `--turns=N`, and a
/// session's name by `--slice NAME` or `--slice=NAME`, each at most once, before or after the path.
/// After `--` there are no options, so that a path may begin with `-`. An empty word is a path too.
/// The error holds the help if a word asks for it before any mistake, or else the first mistake, or
/// it says that memory ran out. The session's name is checked last.
pub fn options_of<S: AsStr>(alloc: Global, words: &[S]) -> Result<Options, OptionsError>
    ensures asked { Reads (asked (map S.text words.now)) result }
    ensures found { IfOk result (λ options. AreFound (map S.text words.now) options) }
    ensures kinds { FailsByWords (fault_of metad (map S.text words.now)) result }
{
    match read_words(alloc, words) {
        Ok(options) if is_named(options.slice.as_ref()) => Ok(options),
        Ok(_) => Err(OptionsError::SessionName),
        Err(error) => Err(OptionsError::Words(error)),
    }
}

/// Whether a session may have the name, if one is given.
fn is_named(slice: Option<&Text>) -> bool
    ensures { result ≡ is_named (option_copied slice.entry) }
{
    match slice {
        Some(name) => is_name(name.as_str()),
        None => true,
    }
}

/// The options that the words give, whatever the name of the session is.
fn read_words<S: AsStr>(alloc: Global, words: &[S]) -> Result<Options, Error>
    ensures asked { ReadsWords (asked (map S.text words.now)) result }
    ensures found { IfOk result (λ options. AreFound (map S.text words.now) options) }
    ensures kinds { FailsBy (fault_of metad (map S.text words.now)) result }
{
    let command = metad_command(alloc)?;
    let matches = command.try_get_matches_from(words)?;
    let classes = text_of(alloc, &matches, "classes")?;
    let turns = matches.get_one::<u32>("turns").unwrap_or(DEFAULT_TURNS);
    let slice = text_of(alloc, &matches, "slice")?;
    Ok(Options {
        classes,
        turns,
        slice,
    })
}

/// The text of an argument, if it was given.
fn text_of(alloc: Global, matches: &ArgMatches<'_>, id: &str) -> Result<Option<Text>, AllocError>
    ensures { IfOk result (λ text. text ≡ first_value (found_of matches.now) id.now) }
{
    match matches.get_str(id) {
        Some(text) => Ok(Some(Text::from_str(alloc, text)?)),
        None => Ok(None),
    }
}

/// The command line of `metad`, with the texts of its help.
fn metad_command<'a>(alloc: Global) -> Result<Command<'a>, AllocError>
    ensures { IfOk result (λ command. app_of command ≡ metad) }
{
    Command::new(alloc, "metad")
        .no_binary_name(true)
        .about(ABOUT)
        .after_help(EXAMPLE)
        .arg(classes_argument(alloc))?
        .arg(turns_argument(alloc))?
        .arg(slice_argument(alloc))
}

/// The path of the class file.
fn classes_argument<'a>(alloc: Global) -> Arg<'a>
    ensures rule { rule_of result ≡ classes_rule }
    ensures own { result.global ≡ false }
{
    Arg::new(alloc, "classes").value_name("CLASSES").help(
        "A JSON class file; without it the demonstration classes are used",
    )
}

/// The option with the number of turns.
fn turns_argument<'a>(alloc: Global) -> Arg<'a>
    ensures rule { rule_of result ≡ turns_rule }
    ensures own { result.global ≡ false }
{
    Arg::new(alloc, "turns")
        .long("turns")
        .value_name("N")
        .value_parser(value_parser!(u32).range(1..=1_000_000))
        .help("How many turns each command has for its calls, from 1 to 1000000 [default: 10000]")
}

/// The option with the name of a session.
fn slice_argument<'a>(alloc: Global) -> Arg<'a>
    ensures rule { rule_of result ≡ slice_rule }
    ensures own { result.global ≡ false }
{
    Arg::new(alloc, "slice")
        .long("slice")
        .value_name("NAME")
        .help("Writes the lines that session NAME depends on, in place of the answers")
}

const ABOUT: &str = "metad 0.8.0, proved with rattle-kit-13f logic dac8208d650f15bf

A server of live objects with the meta-object system of Qt 6, in isolated
sessions. It reads commands from standard input, one JSON object a line, and
writes what the sessions are told to standard output, one JSON object a line.";

const EXAMPLE: &str = r#"Exit status:
  0  the input has ended, or help was asked for
  1  the class file is refused
  2  the words of the command line mean nothing, or NAME is no session's name
  3  the input cannot be read
  4  the output cannot be written
  5  there is no memory

Examples:
  echo '{"class":"QObject","do":"new","session":"a"}' | metad
  metad lamps.json < session     answers with the classes of a file
  metad lamps.json < /dev/null   checks the file: status 0, or 1 and its first fault
  metad --slice a < session      writes the lines that can affect what a receives

Documents: the manual page metad(1), and README.md and docs/ of the sources,
which make install puts into share/doc/metad. docs/TUTORIAL.md is the way in."#;
