//! These calls read what is stored at a place, shown there and bound.
ghost use Rattle.std.specs.Prelude.{◌≡◌, IfOk, IfSome, IsFalse};
ghost use Rattle.std.specs.Option.{option_map, option_map_or};
ghost use Rattle.shared_rows.specs.Table.{IsPlace};
ghost use Rattle.variant_value.specs.declared.value.Value.TheVariants.{Invalid};
ghost use Rattle.variant_value.specs.Values.{IsShort};
ghost use Rattle.property_store.specs.Store.{dynamic_names};
ghost use Rattle.binding_values.specs.Graph.{is_bound, value_in};
ghost use Rattle.binding_values.specs.Scene.{term_at};
ghost use Rattle.session_model.specs.State.{is_text};
ghost use Rattle.session_tables.specs.Bound.{bound_at, stored_at};
ghost use Rattle.session_tables.specs.Reading.{bound_named, named_in};

use crate::bound_stores::BoundStores;
use binding_values::{Binding, BindingError};
use plain_types::{Items, Text};
use property_store::Property;
use std::alloc::AllocError;
use term_core::Expr;
use variant_value::Value;

impl BoundStores {
    /// Copies of the names of an object's dynamic properties, that first set first.
    pub fn dynamic_names(&self, place: usize, object: u32) -> Result<Items<Text>, AllocError>
        requires { IsPlace self.now.shelves.table place }
        ensures { IfOk result (λ names. names ≡ dynamic_names (stored_at self.now place) object) }
    {
        self.stores.dynamic_names(place, object)
    }

    /// Whether a property is bound.
    pub fn is_bound(&self, place: usize, at: Property) -> bool
        requires { IsPlace self.now.graphs place }
        ensures { result ≡ is_bound (bound_at self.now place).bindings at }
    {
        self.bindings.is_bound(place, at)
    }

    /// The bindings, by rising object and number.
    pub fn bindings(&self, place: usize) -> &[Binding]
        requires { IsPlace self.now.graphs place }
        ensures { result.now ≡ (bound_at self.now place).bindings }
    {
        self.bindings.rows(place)
    }

    /// The expression that a property is bound to.
    pub fn expr_at(&self, place: usize, at: Property) -> Option<&Expr>
        requires { IsPlace self.now.graphs place }
        ensures { option_map (λ expr. expr.now) result ≡ term_at (bound_at self.now place).bindings at }
    {
        self.bindings.expr_at(place, at)
    }

    /// Returns the value that a declared property shows, and the error for which it is the default of its kind;
    /// `Invalid` where it is not there.
    pub fn shown(
        &self,
        place: usize,
        at: Property,
    ) -> Result<(Value, Option<BindingError>), AllocError>
        requires place { IsPlace self.now.shelves.table place }
        requires graph { IsPlace self.now.graphs place }
        ensures shown { IfOk result (λ shown. shown ≡ value_in (stored_at self.now place) (bound_at self.now place) at) }
        ensures short { IfOk result (λ shown. IsShort shown.0) }
    {
        if self.is_bound(place, at) {
            return self.bindings.value(place, &self.stores, at);
        }
        match self.stored(place, at) {
            Some(value) => Ok((value.copy(self.alloc)?, None)),
            None => Ok((Value::Invalid, None)),
        }
    }

    /// A copy of the value of the property of this name: of a declared one what it shows, of a dynamic one
    /// what it was set to.
    pub fn named(&self, place: usize, object: u32, name: &str) -> Result<Option<Value>, AllocError>
        requires place { IsPlace self.now.shelves.table place }
        requires graph { IsPlace self.now.graphs place }
        ensures { IfOk result (λ value. value ≡ named_in (stored_at self.now place) (bound_at self.now place) object name.now) }
    {
        if let Some(at) = self.bound_named(place, object, name) {
            let (value, _) = self.bindings.value(place, &self.stores, at)?;
            return Ok(Some(value));
        }
        let _ = self.stores.count(place);
        match self.stores.value_named(place, object, name) {
            Some(value) => Ok(Some(value.copy(self.alloc)?)),
            None => Ok(None),
        }
    }

    /// The declared property of this name, where it is bound.
    fn bound_named(&self, place: usize, object: u32, name: &str) -> Option<Property>
        requires place { IsPlace self.now.shelves.table place }
        requires graph { IsPlace self.now.graphs place }
        ensures { result ≡ bound_named (stored_at self.now place) (bound_at self.now place) object name.now }
    {
        if self.bindings.count(place) == 0 {
            return None;
        }
        let (number, _) = self.stores.declared(place, object, name)?;
        let at = Property { object, number };
        self.is_bound(place, at).then_some(at)
    }

    /// Whether a declared property shows this text.
    #[inline(always)]
    pub fn shows_text(&self, place: usize, at: Property, wanted: &str) -> Result<bool, AllocError>
        requires place { IsPlace self.now.shelves.table place }
        requires graph { IsPlace self.now.graphs place }
        ensures { IfOk result (λ is. is ≡ is_text wanted.now (value_in (stored_at self.now place) (bound_at self.now place) at).0) }
    {
        if self.is_bound(place, at) {
            let (value, _) = self.shown(place, at)?;
            return Ok(is_text(&value, wanted));
        }
        match self.stored(place, at) {
            Some(value) => Ok(is_text(value, wanted)),
            None => Ok(false),
        }
    }

    /// Returns the value that a declared property shows that is not bound: its stored one.
    fn stored(&self, place: usize, at: Property) -> Option<&Value>
        requires place { IsPlace self.now.shelves.table place }
        requires unbound { IsFalse (is_bound (bound_at self.now place).bindings at) }
        ensures value { (option_map_or (λ value. value.now) result Invalid, None) ≡ value_in (stored_at self.now place) (bound_at self.now place) at }
        ensures short { IfSome result (λ value. IsShort value.now) }
    {
        let _ = self.stores.count(place);
        self.stores.value(place, at.object, at.number)
    }
}

/// Whether a value is this text. Most texts differ in length, which is compared first.
#[inline(always)]
fn is_text(value: &Value, wanted: &str) -> bool
    ensures { result ≡ is_text wanted.now value.now }
{
    match value {
        Value::Text(text) => text.len() == wanted.len() && text.as_str() == wanted,
        _ => false,
    }
}
