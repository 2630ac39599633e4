//! The bindings of properties, and groups.
ghost use Rattle.std.specs.Prelude.{◌≡◌, [], IfOk, IsTrue, OnOk, Some, None, if◌then◌else◌};
ghost use Rattle.plain_types.specs.Answers.{RefusedBy};
ghost use Rattle.term_core.specs.Forms.{is_within_limits};
ghost use Rattle.binding_values.specs.Graph as graph;
ghost use Rattle.binding_values.specs.Graph.{begin_refusal, bind_refusal, end_refusal, is_open};
ghost use Rattle.binding_values.specs.Stored.{is_bindable};
ghost use Rattle.session_model.specs.Binding.{asked_property, bindable_property};
ghost use Rattle.session_model.specs.Showing.{changes, showing};
ghost use Rattle.session_model.specs.State.{with_binding, with_binding_taken, with_group, without_group};
ghost use Rattle.session_tables.specs.Refused.{OnRefused};
ghost use Rattle.session_tables.specs.Tables.{IsPlaced, KeepsOthers, state_at, with_state};

use crate::settling::{note, or_clear};
use crate::tables::Tables;
use binding_values::{Change, is_bindable};
use plain_types::{Code, Fault, Items};
use property_store::Property;
use std::alloc::AllocError;
use term_core::Expr;

impl Tables {
    /// The property of this name that the class of an object declares.
    pub fn asked_property(&self, place: usize, object: u32, name: &str) -> Result<Property, Code>
        requires { IsPlaced self.now place }
        ensures { result ≡ asked_property (state_at self.now place) object name.now }
    {
        self.forests.check_object(place, object)?;
        match self.declared(place, object, name) {
            Some((number, _)) => Ok(Property { object, number }),
            None => Err(Code::NoSuchProperty),
        }
    }

    /// Returns the property of this name that the class of an object declares and that may be bound, and be
    /// read in a binding.
    pub fn bindable_property(&self, place: usize, object: u32, name: &str) -> Result<Property, Code>
        requires { IsPlaced self.now place }
        ensures { result ≡ bindable_property (state_at self.now place) object name.now }
    {
        let at = self.asked_property(place, object, name)?;
        if !is_bindable(&self.stores.stores, place, at) {
            return Err(Code::NotBindable);
        }
        Ok(at)
    }

    /// Binds a property to an expression, whatever it was bound to, and returns what has changed by it. More
    /// than `BINDINGS` are `Limit`.
    pub fn bind(&mut self, place: usize, at: Property, expr: Expr) -> Result<Items<Change>, Fault>
        requires place { IsPlaced self.old place }
        requires bindable { IsTrue (is_bindable (state_at self.old place).store at) }
        requires limited { IsTrue (is_within_limits expr) }
        ensures refusal { RefusedBy (bind_refusal (state_at self.old place).graph at) result }
        ensures told { IfOk result (λ told. told ≡ changes (state_at self.old place) (state_at self.new place) (Some at)) }
        ensures ok { OnOk result (self.new ≡ with_state self.old place (with_binding (state_at self.old place) at expr)) }
        ensures refused { OnRefused result (self.new ≡ self.old) }
        ensures keeps { KeepsOthers place self.old self.new }
    {
        note(&mut self.stores.stores, &mut self.stores.bindings, place)?;
        self.stores
            .bindings
            .bind(place, &self.stores.stores, at, expr)?;
        let told = self
            .stores
            .bindings
            .settle(place, &mut self.stores.stores, Some(at));
        Ok(or_clear(&mut self.stores.bindings, place, told)?)
    }

    /// Binds a property no longer, which keeps the value that it shows, and returns what has changed by it.
    pub fn unbind(&mut self, place: usize, at: Property) -> Result<Items<Change>, AllocError>
        requires { IsPlaced self.old place }
        ensures told { IfOk result (λ told. told ≡ changes (state_at self.old place) (state_at self.new place) (Some at)) }
        ensures ok { OnOk result (self.new ≡ with_state self.old place (with_binding_taken (state_at self.old place) at)) }
        ensures keeps { KeepsOthers place self.old self.new }
    {
        note(&mut self.stores.stores, &mut self.stores.bindings, place)?;
        self.stores
            .bindings
            .take(place, &mut self.stores.stores, at)?;
        let told = self
            .stores
            .bindings
            .settle(place, &mut self.stores.stores, Some(at));
        or_clear(&mut self.stores.bindings, place, told)
    }

    /// Begins a group, within which changes are not told, and returns how many are open then. More than
    /// `GROUPS` are `Limit`.
    pub fn begin(&mut self, place: usize) -> Result<u32, Fault>
        requires { IsPlaced self.old place }
        ensures refusal { RefusedBy (begin_refusal (state_at self.old place).graph) result }
        ensures depth { IfOk result (λ depth. depth ≡ (state_at self.new place).graph.depth) }
        ensures ok { OnOk result (self.new ≡ with_state self.old place (with_group (state_at self.old place))) }
        ensures refused { OnRefused result (self.new ≡ self.old) }
        ensures keeps { KeepsOthers place self.old self.new }
    {
        self.stores.bindings.begin(place, &mut self.stores.stores)
    }

    /// Ends the group that was begun last, and returns how many are left, and, where it was the outermost, what
    /// has changed since that began.
    pub fn end(&mut self, place: usize) -> Result<(u32, Items<Change>), Fault>
        requires { IsPlaced self.old place }
        ensures refusal { RefusedBy (end_refusal (state_at self.old place).graph) result }
        ensures depth { IfOk result (λ left. left.0 ≡ (state_at self.new place).graph.depth) }
        ensures told { IfOk result (λ told. told.1 ≡ (if is_open (state_at self.new place).graph then []
            else graph.changes (state_at self.old place).graph.last (showing (state_at self.new place)) None)) }
        ensures ok { OnOk result (self.new ≡ with_state self.old place (without_group (state_at self.old place))) }
        ensures refused { OnRefused result (self.new ≡ self.old) }
        ensures keeps { KeepsOthers place self.old self.new }
    {
        let left = self.stores.bindings.end(place, &self.stores.stores)?;
        let told = self
            .stores
            .bindings
            .settle(place, &mut self.stores.stores, None);
        Ok((left, or_clear(&mut self.stores.bindings, place, told)?))
    }
}
