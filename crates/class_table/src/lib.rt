//! Classes, as a class file declares them, and what a class has from its superclasses.
#![tactic(auto)]

mod base_class;
mod class;
mod declare;
mod fault;
mod file;
mod form;
mod table;

pub use class::{CLASSES, Class, METHODS, Method, PROPERTIES, Property};
pub use fault::{ClassError, ClassFault, ClassFaultKind};
pub use file::FILE_BYTES;
pub use table::ClassTable;
