//! The members of a text that is one JSON object, borrowed from the text where they can be, and
//! proved to be those that `serde_json` reads.
#![tactic(auto)]

mod copy;
mod field;
mod find;
mod own;
mod plain;
mod read;
mod real;
mod scalar;
mod scan;
mod stop;
mod token;
mod tree;
mod value;

pub use field::{Field, Member, Scalar};
pub use find::{is_word, take_at, value_at};
pub use own::Own;
pub use plain::plain_members;
pub use read::{name_at, text_at};
pub use real::Real;
pub use scan::scan_members;
pub use stop::Stop;
pub use token::token_members;
pub use tree::tree_members;
pub use value::read_json;
