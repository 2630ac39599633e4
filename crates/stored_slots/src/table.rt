//! The functors of a server, and what is looked up among them.
ghost use Rattle.std.specs.Prelude.{◌≡◌, ◌<◌, ◌≤◌, IfSome, bytes_eq, length, position, vec_len};
ghost use Rattle.stored_slots.specs.declared.limit.TheConstants.{FUNCTORS};

use crate::functor::Functor;
use crate::limit::FUNCTORS;
use crate::stored::{Closure, StoredFunctor};
use plain_types::{Code, Fault, Items, Text};
use signature_core::Kind;
use std::alloc::{AllocError, Global};
use term_core::{Action, Body, Expr};
use variant_value::Value;

/// The functors that were handed in, each by its index: the first has index 0. None is ever taken out.
pub struct Functors {
    alloc: Global,
    stored: Vec<StoredFunctor>,
    ghost few: { vec_len stored ≤ FUNCTORS },
}

impl Drop for Functors {
    fn drop(self) {
        let Functors {
            alloc: _,
            stored: _,
        } = self;
    }
}

/// The index of the functor of this name in the list.
fn number_of(stored: &[StoredFunctor], name: &str) -> Option<usize>
    ensures number { result ≡ position (λ one. bytes_eq name.now one.functor.name) stored.now }
    ensures within { IfSome result (λ number. number < length stored.now) }
{
    stored.iter().position(
        |one|
            ensures { result ≡ bytes_eq name.entry.now one.now.functor.name }
        { one.is_named(name) },
    )
}

impl Functors {
    ghost use Rattle.std.specs.Prelude.{◌++◌, ◌∷◌, [], All, Some, None, IfOk, OnOk, OnErr, slice_get};
    ghost use Rattle.std.specs.Option.{option_copied};
    ghost use Rattle.plain_types.specs.Answers.{RefusedBy};
    ghost use Rattle.term_core.specs.Bodies.{IsNext};
    ghost use Rattle.stored_slots.specs.Closures.{MayBeCalled, GivesBody, GivesNext};
    ghost use Rattle.stored_slots.specs.Functors.{IsBodyFor, IsCall, IsFunctor, actions_of, add_refusal, index_of, next_of};
    ghost use Rattle.stored_slots.specs.Table.{functors_of};

    /// A table without functors, which takes no memory yet.
    pub fn new(alloc: Global) -> Functors
        ensures { functors_of result ≡ [] }
    {
        Functors {
            alloc,
            stored: Vec::new(alloc),
        }
    }

    /// Adds a functor after the others. A name that another functor has is `NameTaken`, and a functor
    /// beyond the first [`FUNCTORS`] is `Limit`.
    ///
    /// The caller proves two facts about the closure, where it is made. It may be called with any
    /// allocator, any state, and arguments that are as many as the parameters and of their kinds; and an
    /// `Ok` from it is the body with the state and the arguments put in, and the next state. A closure
    /// whose answer depends on anything else, such as how often it was called, cannot be added.
    ///
    /// The caller also proves that the body and the expression for the next state keep to the limits of
    /// bodies and bindings and take no argument but the parameters, that the body sets only properties
    /// whose names are valid, and that the next state reads no property.
    pub fn add(
        &mut self,
        name: Text,
        params: Items<Kind>,
        body: Body,
        next: Expr,
        run: Closure,
    ) -> Result<(), Fault>
        requires callable { MayBeCalled (Closure.pre run) params }
        requires gives_body { GivesBody (Closure.post run) params body }
        requires gives_next { GivesNext (Closure.post run) params next }
        requires is_body { IsBodyFor params body }
        requires is_next { IsNext (length params) next }
        ensures refusal { RefusedBy (add_refusal (functors_of self.old) name) result }
        ensures ok { OnOk result (functors_of self.new
            ≡ functors_of self.old ++ record { name = name; params = params; body = body; next = next } ∷ []) }
        ensures err { OnErr result (functors_of self.new ≡ functors_of self.old) }
    {
        if let Some(code) = self.refusal(name.as_str()) {
            return Err(Fault::Refused(code));
        }
        let functor = Functor {
            name,
            params,
            body,
            next,
        };
        self.stored.push(StoredFunctor { functor, run })?;
        Ok(())
    }

    /// Why a functor of this name cannot be added.
    fn refusal(&self, name: &str) -> Option<Code>
        ensures refusal { result ≡ add_refusal (functors_of self.now) name.now }
        ensures room { result ≡ None → vec_len self.now.stored < FUNCTORS }
    {
        if self.find(name).is_some() {
            return Some(Code::NameTaken);
        }
        if self.stored.len() >= FUNCTORS {
            return Some(Code::Limit);
        }
        None
    }

    /// The index of the functor of this name.
    pub fn find(&self, name: &str) -> Option<u32>
        ensures { result ≡ index_of name.now (functors_of self.now) }
    {
        let index = number_of(&self.stored, name)?;
        Some(index as u32)
    }

    /// Calls the functor at this index with a state and arguments: returns the actions of its body with both put
    /// in, and the next state. All that is known about the closure is what the caller of `add` proved. An error
    /// means that memory ran out, in the closure too.
    pub fn call(
        &self,
        index: u32,
        state: u64,
        args: &[Value],
    ) -> Result<(Vec<Action>, u64), AllocError>
        requires { IsCall (functors_of self.now) index args.now }
        ensures actions { IfOk result (λ answer.
            Some answer.0.items ≡ actions_of (functors_of self.now) index state args.now) }
        ensures next { IfOk result (λ answer.
            Some answer.1 ≡ next_of (functors_of self.now) index state args.now) }
    {
        let stored = &self.stored[index as usize];
        stored.answer(self.alloc, state, args)
    }

    /// Copies of the functors, without their closures.
    pub fn rows(&self) -> Result<Items<Functor>, AllocError>
        ensures rows { IfOk result (λ rows. rows ≡ functors_of self.now) }
        ensures few { IfOk result (λ rows. length rows ≤ FUNCTORS) }
        ensures each { IfOk result (λ rows. All IsFunctor rows) }
    {
        let mut rows = Items::new(self.alloc);
        for one in &self.stored {
            rows.push(one.functor.copy(self.alloc)?)?;
        }
        Ok(rows)
    }

    /// The functor at this index.
    pub fn row(&self, index: u32) -> Option<&Functor>
        ensures row { option_copied result ≡ slice_get (functors_of self.now) index }
        ensures sound { IfSome result (λ functor. IsFunctor functor.now) }
    {
        let stored = self.stored.get(index as usize)?;
        Some(&stored.functor)
    }
}
