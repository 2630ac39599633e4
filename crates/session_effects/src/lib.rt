//! Runs single actions in a session, and looks up what actions and commands need for it: methods, arguments, and
//! the connections that are asked for. Nothing here calls a slot, sends a signal or deletes an object: for an
//! action that does, the functions return what is to be done. The crate also lists the properties of each class
//! in the form that the tables take.
#![tactic(auto)]

mod announcing;
mod class_layouts;
mod connections;
mod effects;
mod evaluation;
mod functors;
mod methods;
mod operations;
mod session_context;
mod setup;
mod slot;
mod values;
mod writing;

pub use announcing::{
    Announcement, NotifySignal, PendingAnnouncements, announcements, property_name, told_args,
};
pub use class_layouts::layouts;
pub use connections::{Options, asked_connection, asked_functor_connection, asked_pattern};
pub use effects::{Emission, apply_action, evaluate_test, resolve_delete, resolve_emit};
pub use functors::{are_arguments, functor_at};
pub use methods::{kinds_at, method_at, method_in, method_named, method_with, signal_named};
pub use operations::{do_found, do_operation};
pub use session_context::SessionContext;
pub use setup::Setup;
pub use slot::Slot;
pub use values::values_of;
pub use writing::{set, write_declared, write_dynamic};
