//! Properties.
ghost use Rattle.std.specs.Prelude.{◌≡◌};
ghost use Rattle.property_store.specs.Property.{is_property};

/// A declared property of an object.
#[derive(Clone, Copy)]
pub struct Property {
    pub object: u32,
    /// Its place among the properties that the object's class declares.
    pub number: usize,
}

/// The two are one property.
pub fn is_property(a: Property, b: Property) -> bool
    ensures { result ≡ is_property a b }
{
    a.object == b.object && a.number == b.number
}
