//! The values of a slot's parameters.
ghost use Rattle.std.specs.Prelude.{◌≡◌, ◌<◌, ◌∷◌, [], IfOk, false, length, not, slice_get, slice_set};
ghost use Rattle.std.specs.Option.{option_map_or};
ghost use Rattle.variant_value.specs.Values.{is_same};

use crate::value::Value;
use std::alloc::{AllocError, Global};
use std::marker::Model;

/// One value is kept here itself, and takes no memory.
#[derive(Drop)]
enum Kept {
    One(Value),
    List(Vec<Value>),
}

/// Values that contracts see as a list.
pub struct Args {
    kept: Kept,
}

// Each scope that drops arguments calls this, where a derived `Drop` would have both forms proved there.
impl Drop for Args {
    fn drop(self) {
        let Args { kept: _ } = self;
    }
}

impl Model for Args {
    ghost use Rattle.std.specs.Coded.{coded_list};
    ghost use Rattle.variant_value.specs.contracts.value.Value as value;
    ghost use Rattle.variant_value.specs.Args.{Values, values_kept};

    ghost Value = { Values };

    ghost coded = { coded_list value.the_row.coded };

    ghost view = { λ args. values_kept args.kept };
}

impl Args {
    /// Copies of values.
    pub fn copied(alloc: Global, values: &[Value]) -> Result<Args, AllocError>
        ensures { IfOk result (λ args. args ≡ values.now) }
    {
        let kept = match values {
            [value] => Kept::One(value.copy(alloc)?),
            _ => Kept::List(copies(alloc, values)?),
        };
        Ok(Args { kept })
    }

    /// One value; this takes no memory.
    pub fn one(value: Value) -> Args
        ensures { result ≡ value ∷ [] }
    {
        Args {
            kept: Kept::One(value),
        }
    }

    /// The values of a vector; this takes no memory.
    pub fn from_vec(values: Vec<Value>) -> Args
        ensures { result ≡ values.items }
    {
        Args {
            kept: Kept::List(values),
        }
    }

    /// Replaces the value at a position, and returns whether the new value differs from the old one;
    /// this takes no memory.
    #[inline(always)]
    pub fn put(&mut self, at: usize, value: Value) -> bool
        requires { at < length self.old }
        ensures changed { result ≡ option_map_or (λ stands. not (is_same stands value)) (slice_get self.old at) false }
        ensures new { self.new ≡ slice_set self.old at value }
    {
        match &mut self.kept {
            Kept::One(kept) => kept.put(value),
            Kept::List(values) => values[at].put(value),
        }
    }

    pub fn as_slice(&self) -> &[Value]
        ensures { result.now ≡ self.now }
    {
        match &self.kept {
            Kept::One(value) => std::slice::from_ref(value),
            Kept::List(values) => values.as_slice(),
        }
    }
}

fn copies(alloc: Global, values: &[Value]) -> Result<Vec<Value>, AllocError>
    ensures { IfOk result (λ copies. copies.items ≡ values.now) }
{
    let mut copies = Vec::with_capacity(alloc, values.len())?;
    for value in values {
        copies.push(value.copy(alloc)?)?;
    }
    Ok(copies)
}
