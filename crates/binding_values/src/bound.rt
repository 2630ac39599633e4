//! The bindings of a place.
ghost use Rattle.std.specs.Prelude.{◌≡◌, ◌==◌, [], IsTrue, OnErr, OnOk, filter, length, not};
ghost use Rattle.std.specs.Option.{option_map};
ghost use Rattle.plain_types.specs.Answers.{RefusedBy};
ghost use Rattle.term_core.specs.Forms.{is_within_limits};
ghost use Rattle.binding_values.specs.Binds.{AreBindings, put_refusal, with_binding};
ghost use Rattle.binding_values.specs.Scene.{term_at};
ghost use Rattle.binding_values.specs.Sorted.{IsRising};
ghost use Rattle.property_store.specs.Property.{is_property};

use crate::binding::Binding;
use crate::sorted::{count_before, find_place, row_at};
use plain_types::{Code, Fault};
use property_store::Property;
use std::alloc::Global;
use std::marker::Model;
use term_core::Expr;

/// How many properties of a place are bound at most.
pub const BINDINGS: usize = 1024;

/// The bindings of a place, by rising object and number.
#[derive(Drop)]
pub struct Bound {
    rows: Vec<Binding>,
}

impl Model for Bound {
    ghost use Rattle.std.specs.Prelude.{List};
    ghost use Rattle.binding_values.specs.declared.binding.Binding.{Binding};
    ghost use Rattle.binding_values.specs.Coded.{coded_bindings};

    ghost Value = { List Binding };

    ghost coded = { coded_bindings };

    ghost use Rattle.binding_values.specs.Binds.{AreBindings};

    ghost view = { λ bound. bound.rows.items };

    ghost invariant = { λ bound. AreBindings bound.rows.items };
}

impl Bound {
    pub fn new(alloc: Global) -> Bound
        ensures { result ≡ [] }
    {
        Bound {
            rows: Vec::new(alloc),
        }
    }

    pub fn len(&self) -> usize
        ensures len { result ≡ length self.now }
        ensures sound { AreBindings self.now }
    {
        self.rows.len()
    }

    /// The bindings, in their order.
    pub fn rows(&self) -> &[Binding]
        ensures { result.now ≡ self.now }
    {
        self.rows.as_slice()
    }

    /// The expression that a property is bound to.
    pub fn expr_at(&self, at: Property) -> Option<&Expr>
        ensures { option_map (λ expr. expr.now) result ≡ term_at self.now at }
    {
        let row = row_at(self.rows.as_slice(), at)?;
        Some(&row.expr)
    }

    /// Binds a property, whatever it was bound to. More than `BINDINGS` are `Limit`.
    pub fn put(&mut self, binding: Binding) -> Result<(), Fault>
        requires { IsTrue (is_within_limits binding.expr) }
        ensures refused { RefusedBy (put_refusal self.old binding.at) result }
        ensures ok { OnOk result (self.new ≡ with_binding binding self.old) }
        ensures err { OnErr result (self.new ≡ self.old) }
    {
        match find_place(self.rows.as_slice(), binding.at) {
            Ok(place) => {
                self.rows[place] = binding;
                Ok(())
            }
            Err(place) => {
                if self.rows.len() >= BINDINGS {
                    return Err(Fault::Refused(Code::Limit));
                }
                self.rows.insert(place, binding)?;
                Ok(())
            }
        }
    }

    /// Binds a property no longer.
    pub fn remove(&mut self, at: Property)
        ensures { self.new ≡ filter (λ binding. not (is_property at binding.at)) self.old }
    {
        match find_place(self.rows.as_slice(), at) {
            Ok(place) => drop(self.rows.remove(place)),
            Err(_) => {}
        }
    }

    /// Binds no property of an object any longer.
    pub fn remove_object(&mut self, object: u32)
        ensures { self.new ≡ filter (λ binding. not (binding.at.object == object)) self.old }
    {
        remove_of(&mut self.rows, object);
    }
}

/// Removes the bindings of an object, which are next to each other.
fn remove_of(rows: &mut Vec<Binding>, object: u32)
    requires { IsRising (λ binding. binding.at) rows.old.items }
    ensures { rows.new.items ≡ filter (λ binding. not (binding.at.object == object)) rows.old.items }
{
    let place = count_before(rows, Property { object, number: 0 });
    'rows: while place < rows.len() && rows[place].at.object == object {
        rows.remove(place);
    }
}
