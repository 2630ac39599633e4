//! A property shows a value.
ghost use Rattle.std.specs.Prelude.{◌≡◌, IfOk};

use crate::property::BindingError;
use crate::sorted::HasProperty;
use property_store::Property;
use signature_core::Kind;
use std::alloc::{AllocError, Global};
use variant_value::Value;

/// How many groups of a place are open at most.
pub const GROUPS: u32 = 1000;

/// A property shows its value, or in error the default of its kind, and the error.
pub struct Shown {
    pub at: Property,
    pub kind: Kind,
    pub value: Value,
    pub error: Option<BindingError>,
}

impl Drop for Shown {
    fn drop(self) {
        let Shown {
            at: _,
            kind: _,
            value: _,
            error: _,
        } = self;
    }
}

impl HasProperty for Shown {
    ghost at = { λ shown. shown.at };

    fn at(&self) -> Property {
        self.at
    }
}

impl Shown {
    /// The value, with the error that it stands for.
    pub fn into_value(self) -> (Value, Option<BindingError>)
        ensures { result ≡ (self.value, self.error) }
    {
        let Shown {
            at: _,
            kind: _,
            value,
            error,
        } = self;
        (value, error)
    }

    /// An equal one in memory of its own.
    pub fn copy(&self, alloc: Global) -> Result<Shown, AllocError>
        ensures { IfOk result (λ shown. shown ≡ self.now) }
    {
        Ok(Shown {
            at: self.at,
            kind: self.kind,
            value: self.value.copy(alloc)?,
            error: self.error,
        })
    }
}
