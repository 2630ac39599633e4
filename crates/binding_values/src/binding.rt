//! Bindings.
use crate::sorted::HasProperty;
use property_store::Property;
use term_core::Expr;

/// A property, and the expression that it is bound to.
pub struct Binding {
    pub at: Property,
    pub expr: Expr,
}

impl Drop for Binding {
    fn drop(self) {
        let Binding { at: _, expr: _ } = self;
    }
}

impl HasProperty for Binding {
    ghost at = { λ binding. binding.at };

    fn at(&self) -> Property {
        self.at
    }
}
