//! The parts that tables of all sessions are made of: one value for each place, under a number that is given once
//! and stays; the rows of all places in one slab; and a list that is changed mostly where it was changed last.
//! Each place sees its own rows alone, by rising number; a row has a key besides, under which it is reached at
//! once. Making a place is two calls, so that several tables can make room first and then all open the place,
//! which then takes no memory and cannot fail.
#![tactic(auto)]

mod buffer;
mod gap;
mod index;
mod links;
mod number;
mod rows;
mod search;
mod table;

pub use buffer::GapBuffer;
pub use links::Links;
pub use number::{Number, Numbered};
pub use rows::SharedRows;
pub use table::Places;
