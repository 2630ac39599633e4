//! An evaluation knows kept results, and the values that are stored.
ghost use Rattle.std.specs.Prelude.{◌≡◌, ◌&&◌, IfNone, IfSome, bytes_eq, position};
ghost use Rattle.std.specs.Option.{option_map};
ghost use Rattle.shared_rows.specs.Table.{IsPlace};
ghost use Rattle.property_store.specs.Table.{store_at};
ghost use Rattle.term_evaluation.specs.Outcomes.{Ends};
ghost use Rattle.binding_values.specs.EvalResult.{IsUnbound};
ghost use Rattle.binding_values.specs.Looking.{IsBoundAs, IsReady, values_in};
ghost use Rattle.binding_values.specs.Scene.{passed_on};
ghost use Rattle.binding_values.specs.Stored.{bindable_number, cell_in, is_bindable, named_in, scene_of};

use crate::bound::Bound;
use crate::eval_cache::EvalCache;
use crate::property::BindingError;
use plain_types::Text;
use property_store::{Field, Property, Stores, is_property};
use signature_core::Kind;
use std::alloc::Global;
use term_core::{Expr, Target};
use term_evaluation::Halt;
use variant_value::Value;

/// The stored values of a place, its bindings, and what is kept of them.
#[derive(Clone, Copy)]
pub(crate) struct Known<'a> {
    pub(crate) stores: &'a Stores,
    pub(crate) place: usize,
    pub(crate) bindings: &'a Bound,
    pub(crate) done: &'a EvalCache,
}

/// A bound property that exists, with its kind and its expression.
#[derive(Clone, Copy)]
pub(crate) struct BoundProperty<'a> {
    pub(crate) at: Property,
    pub(crate) kind: Kind,
    pub(crate) expr: &'a Expr,
}

pub(crate) fn bound_at<'a>(
    stores: &Stores,
    place: usize,
    bindings: &'a Bound,
    at: Property,
) -> Option<BoundProperty<'a>>
    requires { IsPlace stores.now.shelves.table place }
    ensures some { IfSome result (λ bound. (bound.at ≡ at) × IsBoundAs (scene_of (store_at stores.now.shelves place) bindings.now) bound) }
    ensures none { IfNone result (IsUnbound (scene_of (store_at stores.now.shelves place) bindings.now) at) }
{
    let expr = bindings.expr_at(at)?;
    let (kind, _) = cell_at(stores, place, at)?;
    Some(BoundProperty { at, kind, expr })
}

/// The kind and the value of a declared property.
pub fn cell_at<'a>(stores: &'a Stores, place: usize, at: Property) -> Option<(Kind, &'a Value)>
    requires { IsPlace stores.now.shelves.table place }
    ensures { option_map (λ cell. record { kind = cell.0; value = cell.1.now }) result ≡ cell_in (store_at stores.now.shelves place) at }
{
    stores.typed_value(place, at.object, at.number)
}

/// Whether a property is there, and may be bound.
pub fn is_bindable(stores: &Stores, place: usize, at: Property) -> bool
    requires { IsPlace stores.now.shelves.table place }
    ensures { result ≡ is_bindable (store_at stores.now.shelves place) at }
{
    let fields = stores.fields(place, at.object).unwrap_or(&[]);
    match fields.get(at.number) {
        Some(field) => field.bindable,
        None => false,
    }
}

/// The number of the bindable property with a name, or else the first unused number.
fn bindable_number(fields: &[Field], name: &Text) -> usize
    ensures { result ≡ bindable_number name.now fields.now }
{
    match bindable_at(fields, name) {
        Some(number) => number,
        None => fields.len(),
    }
}

fn bindable_at(fields: &[Field], name: &Text) -> Option<usize>
    ensures { result ≡ position (λ field. field.bindable && bytes_eq field.name name.now) fields.now }
{
    fields.iter().position(|field| field.bindable && field.name.as_str() == name.as_str())
}

/// The property that a name stands for.
pub(crate) fn named(
    stores: &Stores,
    place: usize,
    object: u32,
    target: &Target,
    name: &Text,
) -> Option<Property>
    requires { IsPlace stores.now.shelves.table place }
    ensures { result ≡ named_in (store_at stores.now.shelves place) object target.now name.now }
{
    let object = match target {
        Target::Itself => object,
        Target::Object(number) => *number,
        Target::Sender | Target::Child(_) => return None,
    };
    let fields = stores.fields(place, object).unwrap_or(&[]);
    let number = bindable_number(fields, name);
    Some(Property { object, number })
}

impl<'a> Known<'a> {
    /// Reads a property: returns its kept result, or its stored value where it is unbound. What is unbound has no result.
    pub(crate) fn read(&self, alloc: Global, at: Property) -> Result<Value, Halt<BindingError>>
        requires { IsReady self.now }
        ensures { Ends result (passed_on (values_in self.now at)) }
    {
        if self.bindings.expr_at(at).is_none() {
            return match cell_at(self.stores, self.place, at) {
                Some((_, value)) => Ok(value.copy(alloc)?),
                None => Err(Halt::Own(BindingError::EvaluationError)),
            };
        }
        if let Some(kept) = self.done.at(at) {
            return match &kept.outcome {
                Ok(value) => Ok(value.copy(alloc)?),
                Err(error) => Err(Halt::Own(*error)),
            };
        }
        match cell_at(self.stores, self.place, at) {
            Some(_) => Err(Halt::Own(BindingError::BindingLoop)),
            None => Err(Halt::Own(BindingError::EvaluationError)),
        }
    }
}
