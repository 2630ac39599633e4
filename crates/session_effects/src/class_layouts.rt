//! The properties that each class declares, laid out once for the stores of all sessions.
ghost use Rattle.std.specs.Prelude.{◌≡◌, ℕ, IfOk, length};
ghost use Rattle.property_store.specs.Store.{fields_in};
ghost use Rattle.session_model.specs.State.{field_of, fields_of};

use class_table::{ClassTable, Property};
use plain_types::Items;
use property_store::Field;
use std::alloc::{AllocError, Global};

/// The properties of each class by number, those of its superclasses among them; a class is known by
/// its index in the table.
pub fn layouts(alloc: Global, classes: &ClassTable) -> Result<Items<Items<Field>>, AllocError>
    ensures length { IfOk result (λ layouts. length layouts ≡ length classes.now) }
    ensures each { IfOk result (λ layouts. (class : ℕ) → fields_in layouts class ≡ fields_of classes.now class) }
{
    let mut layouts = Items::new(alloc);
    for class in 0..classes.len() {
        layouts.push(fields(alloc, classes, class as u32)?)?;
    }
    Ok(layouts)
}

/// The properties of one class by number.
fn fields(alloc: Global, classes: &ClassTable, class: u32) -> Result<Items<Field>, AllocError>
    ensures { IfOk result (λ fields. fields ≡ fields_of classes.now class) }
{
    let mut fields = Items::new(alloc);
    for number in 0..classes.property_count(class) {
        let Some(property) = classes.property_row(class, number) else {
            return Ok(fields);
        };
        fields.push(field(alloc, property)?)?;
    }
    Ok(fields)
}

/// A property as stores know it.
fn field(alloc: Global, property: &Property) -> Result<Field, AllocError>
    ensures { IfOk result (λ field. field ≡ field_of property.now) }
{
    Ok(Field {
        name: property.name.copy(alloc)?,
        kind: property.kind,
        bindable: property.bindable,
    })
}
