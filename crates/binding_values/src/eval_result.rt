//! Results of evaluations are kept in these rows.
ghost use Rattle.std.specs.Prelude.{◌≡◌};
ghost use Rattle.binding_values.specs.Keeping.{renewed};

use crate::kept_rows::KeptRow;
use crate::property::BindingError;
use plain_types::Items;
use property_store::Property;
use variant_value::Value;

/// A result is the outcome of a bound property's last evaluation, and the properties that it really read, in
/// order.
pub struct EvalResult {
    pub outcome: Result<Value, BindingError>,
    pub reads: Items<Property>,
}

impl Drop for EvalResult {
    fn drop(self) {
        let EvalResult {
            outcome: _,
            reads: _,
        } = self;
    }
}

/// An entry is a bound property and its result.
pub struct CacheEntry {
    pub at: Property,
    pub kept: EvalResult,
}

impl Drop for CacheEntry {
    fn drop(self) {
        let CacheEntry { at: _, kept: _ } = self;
    }
}

impl CacheEntry {
    /// The row of a new result.
    pub(crate) fn into_row(self) -> KeptRow
        ensures { result ≡ renewed self }
    {
        let CacheEntry { at, kept } = self;
        KeptRow {
            at,
            kept: Some(kept),
            is_stale: false,
        }
    }
}
