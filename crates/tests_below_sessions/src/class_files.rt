//! Properties in the tables of class files, which no command reads so far.
use class_table::ClassTable;
use command_line::DEMONSTRATION;
use std::test::Fail;

#[test]
fn classes_have_properties(rt: HostRuntime) -> Result<(), Fail> {
    let table = ClassTable::from_text(rt.alloc(), DEMONSTRATION.as_bytes())?;
    let class = table.find("Cell").unwrap_or(0);
    assert!(rt; table.inherits(class, 0) && !table.inherits(0, class));
    let big = table.property(class, "big").unwrap_or(0);
    assert!(rt; big == 5 && table.properties(class)?.len() == 6);
    let x = table.property_row(class, 1).and_then(|row| row.notify);
    assert!(rt; x == table.class_row(class).map(|row| row.method_offset));
    Ok(())
}
