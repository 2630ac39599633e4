//! A property is named by its object and its name.
use plain_types::Text;

/// A property of an object.
pub struct NamedProperty {
    pub object: u32,
    pub property: Text,
}

impl Drop for NamedProperty {
    fn drop(self) {
        let NamedProperty {
            object: _,
            property: _,
        } = self;
    }
}
