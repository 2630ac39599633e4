//! Values on the heap.
ghost use Rattle.std.specs.Prelude.{◌≡◌, IfOk};

use std::alloc::{AllocError, Global};
use std::marker::Model;

/// A value on the heap, which contracts see as the value itself: what holds it takes the room of an
/// address alone.
#[derive(Drop)]
pub struct Boxed<T> {
    kept: Box<T>,
}

impl<T> Model for Boxed<T> {
    ghost Value = { T };

    ghost coded = { T.code };

    ghost view = { λ boxed. boxed.kept.value };
}

impl<T> Boxed<T> {
    /// Puts a value on the heap.
    pub fn new(alloc: Global, value: T) -> Result<Boxed<T>, AllocError>
    where
        T: Drop,
        ensures { IfOk result (λ boxed. boxed ≡ value) }
    {
        let kept = Box::new(alloc, value)?;
        Ok(Boxed { kept })
    }

    pub fn get(&self) -> &T
        ensures { result.now ≡ self.now }
    {
        &self.kept
    }
}
