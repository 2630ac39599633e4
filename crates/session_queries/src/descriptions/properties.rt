//! The descriptions of the properties of an object.
ghost use Rattle.std.specs.Prelude.{◌≡◌, ◌++◌, IfOk, OnOk, map};
ghost use Rattle.class_table.specs.Lookup.{properties};
ghost use Rattle.property_store.specs.Store.{dynamic_names};
ghost use Rattle.session_model.specs.PropertyDescriptions.{declared_description, dynamic_description, descriptions_from, property_descriptions};
ghost use Rattle.session_queries.specs.Views.{its_settings, its_state};

use crate::descriptions::classes::notify_text;
use crate::session_view::SessionView;
use class_table::Property;
use object_tree::Row;
use plain_types::{Items, Text};
use property_store::Property as At;
use session_model::PropertyDescription;
use std::alloc::AllocError;

/// The declared properties of an object of this row, and then the dynamic ones.
pub(crate) fn property_descriptions(
    session: SessionView,
    row: Row,
) -> Result<Items<PropertyDescription>, AllocError>
    ensures { IfOk result (λ described. described ≡ property_descriptions (its_settings session.entry) (its_state session.entry) row) }
{
    let mut described = Items::new(session.caller.setup.alloc);
    add_declared(session, row, &mut described)?;
    add_dynamic(session, row.number, &mut described)?;
    Ok(described)
}

/// Adds the properties that the object's class declares.
fn add_declared(
    session: SessionView,
    row: Row,
    described: &mut Items<PropertyDescription>,
) -> Result<(), AllocError>
    ensures { OnOk result (described.new ≡ described.old ++ descriptions_from (its_settings session.entry) (its_state session.entry) row 0
        (properties (its_settings session.entry).classes row.class)) }
{
    let classes = &session.caller.setup.classes;
    'properties: for number in 0..classes.property_count(row.class) {
        let Some(property) = classes.property_row(row.class, number) else {
            return Ok(());
        };
        described.push(declared_description(session, row, number as usize, property)?)?;
    }
    Ok(())
}

fn declared_description(
    session: SessionView,
    row: Row,
    number: usize,
    property: &Property,
) -> Result<PropertyDescription, AllocError>
    ensures { IfOk result (λ described. described
        ≡ declared_description (its_settings session.entry) (its_state session.entry) row number property.now) }
{
    let SessionView { caller, tables } = session;
    let at = At {
        object: row.number,
        number,
    };
    let (value, error) = tables.stores.shown(caller.place, at)?;
    Ok(PropertyDescription {
        bindable: property.bindable,
        bound: tables.stores.is_bound(caller.place, at),
        error,
        kind: Some(property.kind),
        name: property.name.copy(caller.setup.alloc)?,
        notify: notify_text(caller.setup, row.class, property.notify)?,
        value,
    })
}

/// Adds the dynamic properties of an object.
fn add_dynamic(
    session: SessionView,
    object: u32,
    described: &mut Items<PropertyDescription>,
) -> Result<(), AllocError>
    ensures { OnOk result (described.new ≡ described.old ++ map (dynamic_description (its_state session.entry) object)
        (dynamic_names (its_state session.entry).store object)) }
{
    let SessionView { caller, tables } = session;
    let names = tables.stores.dynamic_names(caller.place, object)?;
    'names: for name in names.as_slice() {
        described.push(dynamic_description(session, object, name)?)?;
    }
    Ok(())
}

fn dynamic_description(
    session: SessionView,
    object: u32,
    name: &Text,
) -> Result<PropertyDescription, AllocError>
    ensures { IfOk result (λ described. described ≡ dynamic_description (its_state session.entry) object name.now) }
{
    let SessionView { caller, tables } = session;
    let value = tables.property(caller.place, object, name.as_str())?;
    Ok(PropertyDescription {
        bindable: false,
        bound: false,
        error: None,
        kind: None,
        name: name.copy(caller.setup.alloc)?,
        notify: None,
        value,
    })
}
