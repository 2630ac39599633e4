//! Why a property that is bound has no value.
ghost use Rattle.std.specs.Prelude.{◌≡◌};
ghost use Rattle.binding_values.specs.Sorted.{is_before};

use property_store::Property;

/// Why a bound property has no value.
#[derive(Clone, Copy)]
pub enum BindingError {
    /// The property depends on itself.
    BindingLoop,
    /// The expression has no value, or none of the property's kind.
    EvaluationError,
}

/// Whether `a` comes before `b`: properties are ordered by object, then by number.
pub(crate) fn is_before(a: Property, b: Property) -> bool
    ensures { result ≡ is_before a b }
{
    a.object < b.object || (a.object == b.object && a.number < b.number)
}
