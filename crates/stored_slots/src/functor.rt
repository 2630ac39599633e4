//! A functor has these parts besides its closure.
ghost use Rattle.std.specs.Prelude.{◌≡◌, IfOk};

use plain_types::{Items, Text};
use signature_core::Kind;
use std::alloc::{AllocError, Global};
use term_core::{Body, Expr};
use term_evaluation::copied_body;

/// A functor as it is shown: plain data, by which two functors can be compared.
pub struct Functor {
    /// A connection names the functor by this, and its calls are printed with it.
    pub name: Text,
    /// The kinds of its parameters. A signal may be connected to it whose first parameters are of these
    /// kinds.
    pub params: Items<Kind>,
    /// The body says what the functor does, as a slot's body does for a slot; `self` is its context object, and
    /// `state` is the number that its connection keeps.
    pub body: Body,
    /// This expression gives its connection the next state, over the state and the arguments.
    pub next: Expr,
}

impl Drop for Functor {
    fn drop(self) {
        let Functor {
            name: _,
            params: _,
            body: _,
            next: _,
        } = self;
    }
}

impl Functor {
    pub fn copy(&self, alloc: Global) -> Result<Functor, AllocError>
        ensures { IfOk result (λ copy. copy ≡ self.now) }
    {
        Ok(Functor {
            name: self.name.copy(alloc)?,
            params: Items::from_vec(Vec::from_slice(alloc, self.params.as_slice())?),
            body: copied_body(alloc, &self.body)?,
            next: self.next.copy(alloc)?,
        })
    }
}
