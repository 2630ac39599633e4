//! The start of `metad`: what the words of its command line mean, the classes and turns that it runs with,
//! and its functors.
#![tactic(auto)]

mod beginning;
mod clamp;
mod class_file;
mod class_files;
mod command_line;
mod count;
mod demonstration;
mod ending;
mod functors;
mod options;
mod refusal;
mod stack;
mod starting;

pub use beginning::Beginning;
pub use clamp::{clamp_answer, clamp_body, kept_state};
pub use class_file::{
    ClassFileError, MOST_BYTES, classes_at, classes_in, classes_of, read_at_most,
};
pub use class_files::ClassFiles;
pub use command_line::CommandLine;
pub use count::count_answer;
pub use demonstration::DEMONSTRATION;
pub use ending::{Ending, Stream, class_text};
pub use functors::{add_count, with_clamp};
pub use options::{DEFAULT_TURNS, Options, OptionsError, options_of};
pub use stack::reserve_stack;
pub use starting::{start, start_with, words_of};
