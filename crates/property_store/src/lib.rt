//! The properties of the objects of all places: the declared ones, which each object of a class has,
//! and those that an object was given besides. Each place sees its own objects alone.
#![tactic(auto)]

mod dynamic;
mod field;
mod laws;
mod link;
mod links;
mod pending;
mod property;
mod row;
mod stores;
mod unwritten;
mod written;

pub use dynamic::DYNAMIC;
pub use field::{Field, default_of};
pub use laws::law_drains;
pub use pending::Pending;
pub use property::{Property, is_property};
pub use stores::Stores;
pub use unwritten::Unwritten;
pub use written::Written;
