//! The types beneath all others, which contracts see as plain data: a text and a list, what a name is, the
//! codes of metad's protocol with the fault that a call answers, and what a connection calls and how. Two
//! texts with the same bytes are equal, wherever they lie in memory.
#![tactic(auto)]

mod callee;
mod code;
mod connection_type;
mod fault;
mod items;
mod name;
mod short_text;
mod text;

pub use callee::Callee;
pub use code::Code;
pub use connection_type::ConnectionType;
pub use fault::Fault;
pub use items::Items;
pub use name::{NAME_BYTES, is_name};
pub use text::Text;
