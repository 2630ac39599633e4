//! The forms of metad's commands: by which word and which keys each is known, and what it asks.
#![tactic(auto)]

ghost use Rattle.std.specs.Prelude.{◌≡◌, IfSome, true};
ghost use Rattle.serde_json.specs.Data.{Data};
ghost use Rattle.session_model.specs.Named.{IsNamedAsked};
ghost use Rattle.wire_commands.specs.Commands.{all_words, asked_of};
ghost use Rattle.wire_commands.specs.Found.{are_distinct};

mod bindings;
mod classes;
mod commands;
mod events;
mod found;
mod held;
mod keys;
mod named_property;
mod properties;
mod shared;
mod sharing;
mod signals;
mod trees;

pub use commands::command_in;

/// A command that is read uses names for the property that it sets, for what it publishes, and for the session
/// and the publication that it joins. So what sessions hold is called by names.
///
/// There is nothing to run: the clause is the theorem.
pub fn commands_use_names()
    ensures { (json : Data) → IfSome (asked_of json) IsNamedAsked }
{}

/// No two commands have the same word, whichever families they are of.
///
/// There is nothing to run: the clause is the theorem.
pub fn commands_have_distinct_words()
    ensures { are_distinct all_words ≡ true }
{}
