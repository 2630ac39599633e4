//! Descriptions are written as JSON objects, with their keys in byte order.
#![tactic(auto, unfolding(serde_json::proofs::OnLiterals::serde_json_on_literals))]

ghost use Rattle.std.specs.Prelude.{◌≡◌, ◌++◌, OnOk, string_bytes};
ghost use Rattle.serde_json.specs.Written.{compact_text};
ghost use Rattle.session_model.specs.declared.descriptions.CalleeDescription.TheVariants.{Functor, Method};
ghost use Rattle.wire_format.specs.Descriptions.{json_of_class, json_of_connection, json_of_connection_to, json_of_declared_method};
ghost use Rattle.wire_format.specs.Descriptions.{json_of_declared_property, json_of_functor, json_of_join, json_of_meta, json_of_named_property};
ghost use Rattle.wire_format.specs.Descriptions.{json_of_object, json_of_property, json_of_publication, json_of_spin, json_of_status};

use crate::written::{Written, put};
use plain_types::Text;
use session_model::{
    CalleeDescription, ClassDescription, ConnectionDescription, DeclaredMethod, DeclaredProperty,
    FunctorDescription, JoinDescription, MetaObject, NamedProperty, ObjectDescription,
    PropertyDescription, PublicationDescription, Spin, Status,
};
use std::alloc::{AllocError, Global};

impl Written for MetaObject {
    ghost json = { json_of_meta };

    #[inline(never)]
    fn push(&self, alloc: Global, buffer: &mut String) -> Result<(), AllocError> {
        put(alloc, buffer, "{\"class\":", &self.class)?;
        put(alloc, buffer, ",\"methodOffset\":", &self.method_offset)?;
        put(alloc, buffer, ",\"methods\":", &self.methods)?;
        put(alloc, buffer, ",\"properties\":", &self.properties)?;
        put(alloc, buffer, ",\"propertyOffset\":", &self.property_offset)?;
        put(alloc, buffer, ",\"super\":", &self.superclass)?;
        buffer.push_str("}")?;
        Ok(())
    }
}

impl Written for Spin {
    ghost json = { json_of_spin };

    #[inline(never)]
    fn push(&self, alloc: Global, buffer: &mut String) -> Result<(), AllocError> {
        put(alloc, buffer, "{\"events\":", &self.events)?;
        put(alloc, buffer, ",\"left\":", &self.left)?;
        put(alloc, buffer, ",\"lost\":", &self.lost)?;
        put(alloc, buffer, ",\"mismatched\":", &self.mismatched)?;
        buffer.push_str("}")?;
        Ok(())
    }
}

impl Written for Status {
    ghost json = { json_of_status };

    #[inline(never)]
    fn push(&self, alloc: Global, buffer: &mut String) -> Result<(), AllocError> {
        put(alloc, buffer, "{\"bindings\":", &self.bindings)?;
        put(alloc, buffer, ",\"connections\":", &self.connections)?;
        put(alloc, buffer, ",\"group\":", &self.group)?;
        put(alloc, buffer, ",\"joins\":", &self.joins)?;
        put(alloc, buffer, ",\"lost\":", &self.lost)?;
        put(alloc, buffer, ",\"mismatched\":", &self.mismatched)?;
        put(alloc, buffer, ",\"objects\":", &self.objects)?;
        put(alloc, buffer, ",\"publications\":", &self.publications)?;
        put(alloc, buffer, ",\"queued\":", &self.queued)?;
        buffer.push_str("}")?;
        Ok(())
    }
}

impl Written for NamedProperty {
    ghost json = { json_of_named_property };

    fn push(&self, alloc: Global, buffer: &mut String) -> Result<(), AllocError> {
        put(alloc, buffer, "{\"object\":", &self.object)?;
        put(alloc, buffer, ",\"property\":", &self.property)?;
        buffer.push_str("}")?;
        Ok(())
    }
}

impl Written for FunctorDescription {
    ghost json = { json_of_functor };

    fn push(&self, alloc: Global, buffer: &mut String) -> Result<(), AllocError> {
        put(alloc, buffer, "{\"name\":", &self.name)?;
        put(alloc, buffer, ",\"state\":", &self.keeps_state)?;
        put(alloc, buffer, ",\"types\":", &self.kinds)?;
        buffer.push_str("}")?;
        Ok(())
    }
}

impl Written for PublicationDescription {
    ghost json = { json_of_publication };

    fn push(&self, alloc: Global, buffer: &mut String) -> Result<(), AllocError> {
        put(alloc, buffer, "{\"name\":", &self.name)?;
        put(alloc, buffer, ",\"object\":", &self.object)?;
        put(alloc, buffer, ",\"signal\":", &self.signal)?;
        buffer.push_str("}")?;
        Ok(())
    }
}

impl Written for JoinDescription {
    ghost json = { json_of_join };

    fn push(&self, alloc: Global, buffer: &mut String) -> Result<(), AllocError> {
        put(alloc, buffer, "{\"from\":", &self.from)?;
        put(alloc, buffer, ",\"method\":", &self.method)?;
        put(alloc, buffer, ",\"name\":", &self.name)?;
        put(alloc, buffer, ",\"object\":", &self.object)?;
        put(alloc, buffer, ",\"types\":", &self.kinds)?;
        buffer.push_str("}")?;
        Ok(())
    }
}

impl Written for ObjectDescription {
    ghost json = { json_of_object };

    fn push(&self, alloc: Global, buffer: &mut String) -> Result<(), AllocError> {
        put(alloc, buffer, "{\"blocked\":", &self.blocked)?;
        put(alloc, buffer, ",\"children\":", &self.children)?;
        put(alloc, buffer, ",\"class\":", &self.class)?;
        put(
            alloc,
            buffer,
            ",\"connectionsFrom\":",
            &self.connections_from,
        )?;
        put(alloc, buffer, ",\"connectionsTo\":", &self.connections_to)?;
        put(alloc, buffer, ",\"events\":", &self.events)?;
        put(alloc, buffer, ",\"level\":", &self.level)?;
        put(alloc, buffer, ",\"parent\":", &self.parent)?;
        buffer.push_str("}")?;
        Ok(())
    }
}

impl Written for DeclaredProperty {
    ghost json = { json_of_declared_property };

    fn push(&self, alloc: Global, buffer: &mut String) -> Result<(), AllocError> {
        put(alloc, buffer, "{\"bindable\":", &self.bindable)?;
        put(alloc, buffer, ",\"class\":", &self.class)?;
        put(alloc, buffer, ",\"name\":", &self.name)?;
        put(alloc, buffer, ",\"notify\":", &self.notify)?;
        put(alloc, buffer, ",\"type\":", &self.kind)?;
        buffer.push_str("}")?;
        Ok(())
    }
}

impl Written for DeclaredMethod {
    ghost json = { json_of_declared_method };

    fn push(&self, alloc: Global, buffer: &mut String) -> Result<(), AllocError> {
        put(alloc, buffer, "{\"class\":", &self.class)?;
        put(alloc, buffer, ",\"signature\":", &self.signature)?;
        put(alloc, buffer, ",\"types\":", &self.kinds)?;
        buffer.push_str("}")?;
        Ok(())
    }
}

impl Written for ClassDescription {
    ghost json = { json_of_class };

    fn push(&self, alloc: Global, buffer: &mut String) -> Result<(), AllocError> {
        put(alloc, buffer, "{\"class\":", &self.class)?;
        put(alloc, buffer, ",\"properties\":", &self.properties)?;
        put(alloc, buffer, ",\"signals\":", &self.signals)?;
        put(alloc, buffer, ",\"slots\":", &self.slots)?;
        put(alloc, buffer, ",\"super\":", &self.superclass)?;
        buffer.push_str("}")?;
        Ok(())
    }
}

impl Written for ConnectionDescription {
    ghost json = { json_of_connection };

    fn push(&self, alloc: Global, buffer: &mut String) -> Result<(), AllocError> {
        match &self.callee {
            CalleeDescription::Method(method) => push_to_method(alloc, buffer, self, method),
            CalleeDescription::Functor(functor, state) => {
                push_to_functor(alloc, buffer, self, functor, *state)
            }
        }
    }
}

impl Written for PropertyDescription {
    ghost json = { json_of_property };

    fn push(&self, alloc: Global, buffer: &mut String) -> Result<(), AllocError> {
        put(alloc, buffer, "{\"bindable\":", &self.bindable)?;
        put(alloc, buffer, ",\"bound\":", &self.bound)?;
        put(alloc, buffer, ",\"error\":", &self.error)?;
        put(alloc, buffer, ",\"name\":", &self.name)?;
        put(alloc, buffer, ",\"notify\":", &self.notify)?;
        put(alloc, buffer, ",\"type\":", &self.kind)?;
        put(alloc, buffer, ",\"value\":", &self.value)?;
        buffer.push_str("}")?;
        Ok(())
    }
}

/// Appends a connection to a method.
fn push_to_method(
    alloc: Global,
    buffer: &mut String,
    row: &ConnectionDescription,
    method: &Text,
) -> Result<(), AllocError>
    ensures { OnOk result (string_bytes buffer.new
        ≡ string_bytes buffer.old ++ compact_text (json_of_connection_to row.now (Method method.now))) }
{
    put(alloc, buffer, "{\"connection\":", &row.number)?;
    put(alloc, buffer, ",\"method\":", method)?;
    put(alloc, buffer, ",\"receiver\":", &row.receiver)?;
    put(alloc, buffer, ",\"sender\":", &row.sender)?;
    put(alloc, buffer, ",\"signal\":", &row.signal)?;
    put(alloc, buffer, ",\"single\":", &row.single)?;
    put(alloc, buffer, ",\"type\":", &row.mode)?;
    buffer.push_str("}")?;
    Ok(())
}

/// Appends a connection to a functor.
fn push_to_functor(
    alloc: Global,
    buffer: &mut String,
    row: &ConnectionDescription,
    functor: &Text,
    state: u64,
) -> Result<(), AllocError>
    ensures { OnOk result (string_bytes buffer.new
        ≡ string_bytes buffer.old ++ compact_text (json_of_connection_to row.now (Functor functor.now state))) }
{
    put(alloc, buffer, "{\"connection\":", &row.number)?;
    put(alloc, buffer, ",\"context\":", &row.receiver)?;
    put(alloc, buffer, ",\"functor\":", functor)?;
    put(alloc, buffer, ",\"sender\":", &row.sender)?;
    put(alloc, buffer, ",\"signal\":", &row.signal)?;
    put(alloc, buffer, ",\"single\":", &row.single)?;
    put(alloc, buffer, ",\"state\":", &state)?;
    put(alloc, buffer, ",\"type\":", &row.mode)?;
    buffer.push_str("}")?;
    Ok(())
}
