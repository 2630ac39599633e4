//! The properties of objects.
ghost use Rattle.std.specs.Prelude.{◌≡◌, IfOk, IsFalse, OnOk, OnErr, Some, option_map};
ghost use Rattle.std.specs.Option.{unwrap_or};
ghost use Rattle.variant_value.specs.declared.value.Value.TheVariants.{Invalid};
ghost use Rattle.plain_types.specs.Answers.{OnMemory, RefusedBy};
ghost use Rattle.variant_value.specs.Values.{IsShort};
ghost use Rattle.property_store.specs.Store.{dynamic_refusal, fitting};
ghost use Rattle.session_model.specs.Showing.{named_value};
ghost use Rattle.session_model.specs.Writing.{Declared, Dynamic, Removed, declared, with_writing};
ghost use Rattle.session_tables.specs.Named.{Tells, WritesNamed};
ghost use Rattle.session_tables.specs.Settled.{is_idle};
ghost use Rattle.session_tables.specs.Tables.{IsPlaced, KeepsOthers, state_at, with_state};

use crate::named::NamedWrite;
use crate::settling::{is_idle, note, or_clear};
use crate::tables::Tables;
use binding_graph::{WriteChanges, law_steps};
use plain_types::{Code, Fault, Text};
use property_store::{Property, Unwritten};
use signature_core::Kind;
use std::alloc::AllocError;
use variant_value::Value;

impl Tables {
    /// The number and the kind of the property of this name that the class of an object declares.
    pub fn declared(&self, place: usize, object: u32, name: &str) -> Option<(usize, Kind)>
        requires { IsPlaced self.now place }
        ensures { result ≡ option_map (λ of. (of.number, of.kind)) (declared (state_at self.now place) object name.now) }
    {
        self.stores.stores.declared(place, object, name)
    }

    /// A copy of the value of the property of this name: the value that a declared one shows, or that a dynamic one
    /// was set to; `Invalid` where there is no such property.
    pub fn property(&self, place: usize, object: u32, name: &str) -> Result<Value, AllocError>
        requires { IsPlaced self.now place }
        ensures { IfOk result (λ value. value ≡ unwrap_or (named_value (state_at self.now place) object name.now) Invalid) }
    {
        Ok(
            self.stores
                .named(place, object, name)?
                .unwrap_or(Value::Invalid),
        )
    }

    /// Gives a declared property a value of its kind, which is bound no longer then, and returns what has
    /// changed by it. Where nothing is bound and no group is open this takes no memory.
    pub fn write(
        &mut self,
        place: usize,
        object: u32,
        number: usize,
        value: Value,
    ) -> Result<WriteChanges, AllocError>
        requires place { IsPlaced self.old place }
        requires fits { fitting (state_at self.old place).store object number value ≡ Some value }
        requires short { IsShort value }
        ensures told { IfOk result (Tells (record { object = object; number = number }) (state_at self.old place) (state_at self.new place)) }
        ensures ok { OnOk result (self.new ≡ with_state self.old place
            (with_writing (state_at self.old place) object (Declared number value))) }
        ensures idle { OnErr result (IsFalse (is_idle (state_at self.old place).graph)) }
        ensures keeps { KeepsOthers place self.old self.new }
    {
        law_steps();
        if is_idle(&self.stores.stores, &self.stores.bindings, place) {
            let is_change = self.stores.stores.write(place, object, number, value);
            return Ok(WriteChanges::alone(is_change.unwrap_or(false)));
        }
        note(&mut self.stores.stores, &mut self.stores.bindings, place)?;
        let at = Property { object, number };
        self.stores
            .bindings
            .take(place, &mut self.stores.stores, at)?;
        let _ = self.stores.stores.write(place, object, number, value);
        let changed = self
            .stores
            .bindings
            .settle_written(place, &mut self.stores.stores, at);
        or_clear(&mut self.stores.bindings, place, changed)
    }

    /// Gives the declared property of this name a value as one of its kind, in the same way.
    pub fn write_named(
        &mut self,
        place: usize,
        object: u32,
        name: &str,
        value: Value,
    ) -> Result<NamedWrite, Fault>
        requires place { IsPlaced self.old place }
        requires short { IsShort value }
        ensures writes { WritesNamed place object name.now value self.old result self.new }
        ensures idle { OnMemory result (IsFalse (is_idle (state_at self.old place).graph)) }
        ensures keeps { KeepsOthers place self.old self.new }
    {
        law_steps();
        if is_idle(&self.stores.stores, &self.stores.bindings, place) {
            match self.stores.stores.write_named(place, object, name, value) {
                Ok((number, is_change)) => {
                    let changed = WriteChanges::alone(is_change);
                    return Ok(NamedWrite::Declared { number, changed });
                }
                Err(Unwritten::Undeclared(value)) => return Ok(NamedWrite::Undeclared(value)),
                Err(Unwritten::Refused(code)) => return Err(Fault::Refused(code)),
            }
        }
        let Some((number, kind)) = self.stores.stores.declared(place, object, name) else {
            return Ok(NamedWrite::Undeclared(value));
        };
        let Ok(value) = value.convert(kind) else {
            return Err(Fault::Refused(Code::BadValue));
        };
        let changed = self.write(place, object, number, value)?;
        Ok(NamedWrite::Declared { number, changed })
    }

    /// Gives a dynamic property a value, and makes it where the object has none of this name. The
    /// refusal is that of [`Stores::set_dynamic`](property_store::Stores::set_dynamic).
    pub fn set_dynamic(
        &mut self,
        place: usize,
        object: u32,
        name: Text,
        value: Value,
    ) -> Result<(), Fault>
        requires place { IsPlaced self.old place }
        requires short { IsShort value }
        ensures refusal { RefusedBy (dynamic_refusal (state_at self.old place).store object name) result }
        ensures ok { OnOk result (self.new ≡ with_state self.old place
            (with_writing (state_at self.old place) object (Dynamic name value))) }
        ensures err { OnErr result (self.new ≡ self.old) }
    {
        law_steps();
        self.stores.stores.set_dynamic(place, object, name, value)
    }

    /// Takes the dynamic property of this name away, where there is one.
    pub fn remove_dynamic(&mut self, place: usize, object: u32, name: &str)
        requires { IsPlaced self.old place }
        ensures { self.new ≡ with_state self.old place
            (with_writing (state_at self.old place) object (Removed name.now)) }
    {
        law_steps();
        self.stores.stores.remove_dynamic(place, object, name);
    }
}
