//! Reading a class file.
ghost use Rattle.std.specs.Prelude.{◌≡◌, ◌+◌, ◌≤◌, IfOk, length, map};
ghost use Rattle.serde_json.specs.View.{view};
ghost use Rattle.class_table.specs.ClassFile.{classes_in, declared, json_in, table_of};
ghost use Rattle.class_table.specs.Faults.{Answers, Gives};

use crate::class::CLASSES;
use crate::declare::declared_class;
use crate::fault::{ClassError, ClassFaultKind, Stop};
use crate::form::{array_in, has_only, member};
use crate::table::ClassTable;
use serde_json::Value;
use std::alloc::Global;

/// The most bytes that a class file may have.
pub const FILE_BYTES: usize = 1_048_576;

impl ClassTable {
    /// Reads the table of a class file: `QObject`, and then the classes in the order of the file. A
    /// refused file has the fault that is found first, with the number of its class, or 0 for the file:
    /// the file is checked as a whole, and then class by class.
    #[tactic(auto, unfolding(crate::specs::ClassFile::table_of))]
    pub fn from_text(alloc: Global, bytes: &[u8]) -> Result<ClassTable, ClassError>
        ensures { Answers result (table_of bytes.now) }
    {
        let json = match json_in(alloc, bytes) {
            Ok(json) => json,
            Err(stop) => return Err(stop.at(0)),
        };
        let written = match classes_in(&json) {
            Ok(written) => written,
            Err(stop) => return Err(stop.at(0)),
        };
        declare(alloc, ClassTable::new(alloc)?, written)
    }
}

/// The JSON that the file is.
#[tactic(auto, unfolding(crate::specs::ClassFile::json_in))]
fn json_in(alloc: Global, bytes: &[u8]) -> Result<Value, Stop>
    ensures { Gives view result (json_in bytes.now) }
{
    if bytes.len() > FILE_BYTES {
        return Err(Stop::Fault(ClassFaultKind::Limit));
    }
    let Ok(text) = str::from_utf8(bytes) else {
        return Err(Stop::Fault(ClassFaultKind::NotJson));
    };
    match Value::from_str(alloc, text) {
        Ok(json) => Ok(json),
        Err(error) if error.is_memory() => Err(Stop::Memory),
        Err(_) => Err(Stop::Fault(ClassFaultKind::NotJson)),
    }
}

/// The classes that are written in the file.
#[tactic(auto, unfolding(crate::specs::ClassFile::classes_in))]
fn classes_in(json: &Value) -> Result<&[Value], Stop>
    ensures exact { Gives (λ v. map view v.now) result (classes_in (view json.now)) }
    ensures few { IfOk result (λ v. length v.now ≤ CLASSES) }
{
    let written = array_in(member(json, "classes")?)?;
    if !has_only(json, &["classes"]) {
        return Err(Stop::Fault(ClassFaultKind::BadForm));
    }
    if written.len() > CLASSES {
        return Err(Stop::Fault(ClassFaultKind::Limit));
    }
    Ok(written)
}

/// Adds the classes after those of the table, in order.
fn declare(
    alloc: Global,
    mut table: ClassTable,
    written: &[Value],
) -> Result<ClassTable, ClassError>
    requires { length table + length written.now ≤ CLASSES + 1 }
    ensures { Answers result (declared 1 table (map view written.now)) }
{
    for (index, json) in written.iter().enumerate() {
        let number = index as u32 + 1;
        let class = match declared_class(alloc, &table, json) {
            Ok(class) => class,
            Err(stop) => return Err(stop.at(number)),
        };
        table.push(class)?;
    }
    Ok(table)
}
