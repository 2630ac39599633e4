//! Values that own what they have.
ghost use Rattle.std.specs.Prelude.{◌≡◌, IfOk, map};
ghost use Rattle.serde_json.specs.Data.{array};
ghost use Rattle.serde_json.specs.View.{view};
ghost use Rattle.json_reading.specs.Fields.{elements_of};
ghost use Rattle.json_reading.specs.Members.{data_of, items_in, scalar_data};

use crate::field::{Field, Scalar};
use plain_types::Items;
use serde_json::Value;
use std::alloc::{AllocError, Global};

impl Field<'_> {
    /// A copy of the value.
    pub fn to_json(&self, alloc: Global) -> Result<Value, AllocError>
        ensures { IfOk result (λ json. view json ≡ data_of self.now) }
    {
        match self {
            Field::Plain(scalar) => scalar_json(alloc, scalar),
            Field::List(scalars) => list_json(alloc, scalars),
            Field::Tree(value) => Value::clone(value),
            Field::Owned(own) => Value::clone(own.json()),
        }
    }

    /// The value: itself where the member owns it, which then has null, and else a copy.
    pub fn take_json(&mut self, alloc: Global) -> Result<Value, AllocError>
        ensures { IfOk result (λ json. view json ≡ data_of self.old) }
    {
        match self {
            Field::Owned(own) => Ok(own.take()),
            _ => self.to_json(alloc),
        }
    }

    /// Copies of the elements of the array that the value is, or none where it is no array.
    #[tactic(auto, using(crate::proofs::CopyLemmas::elements_of_array))]
    pub fn to_items(&self, alloc: Global) -> Result<Items<Value>, AllocError>
        ensures { IfOk result (λ items. map view items ≡ elements_of (data_of self.now)) }
    {
        match self.to_json(alloc)? {
            Value::Array(items) => Ok(Items::from_vec(items)),
            _ => Ok(Items::new(alloc)),
        }
    }
}

pub(crate) fn scalar_json(alloc: Global, scalar: &Scalar<'_>) -> Result<Value, AllocError>
    ensures { IfOk result (λ json. view json ≡ scalar_data scalar.now) }
{
    Ok(match *scalar {
        Scalar::Null => Value::Null,
        Scalar::Truth(truth) => Value::Bool(truth),
        Scalar::Number(number) => Value::from(number),
        Scalar::Signed(number) => Value::from(number),
        Scalar::Real(real) => real.to_json(),
        Scalar::Text(text) => Value::String(String::from_str(alloc, text)?),
    })
}

fn list_json(alloc: Global, scalars: &[Scalar<'_>]) -> Result<Value, AllocError>
    ensures { IfOk result (λ json. view json ≡ array (items_in scalars.now)) }
{
    let mut items = Vec::with_capacity(alloc, scalars.len())?;
    for scalar in scalars {
        items.push(scalar_json(alloc, scalar)?)?;
    }
    Ok(Value::Array(items))
}
