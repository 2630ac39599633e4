//! The tables of a server's sessions: what each session holds, and whether it has failed because memory ran out. A
//! session has the same place in all of them. A call touches only the place that it names, except for a post, which
//! reaches the sessions that have joined it.
#![tactic(auto)]

mod bindings;
mod bound_stores;
mod desks;
mod events;
mod listing;
mod named;
mod posts;
mod properties;
mod reading;
mod settling;
mod signals;
mod tables;
mod trees;

pub use binding_graph::WriteChanges;
pub use bound_stores::BoundStores;
pub use named::NamedWrite;
pub use posts::Sending;
pub use tables::Tables;
