//! Connections of signals to methods and functors: for each place a list by rising number, found from
//! both ends without a look at the others. Objects, signals, methods and functors are numbers here; what
//! they are is not known.
#![tactic(auto)]

mod buckets;
mod connection;
mod ends;
mod limit;
mod link;
mod listing;
mod mark;
mod pattern;
mod routes;
mod table;

pub use connection::{Connection, NewConnection};
pub use limit::{CONNECTIONS, LISTED};
pub use listing::EndCounts;
pub use pattern::{Pattern, Receiver};
pub use table::Connections;
