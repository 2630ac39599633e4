//! The handle by which a program in C holds a server.
ghost use Rattle.std.specs.Prelude.{◌≡◌, ◌↔◌, Option, Some, None, IsTrue, IsSome};
ghost use Rattle.std.specs.Option.{option_map};

use crate::kept::Kept;
use crate::loose::Loose;
use crate::parts::Parts;
use std::alloc::Global;
use std::mem;

/// A server on the heap, or nothing. C holds it, and neither reads nor writes its fields.
#[repr(C)]
pub struct Handle {
    loose: Loose,
    is_open: bool,
    ghost open_as_said: { IsTrue is_open ↔ IsSome loose.value },
}

impl Handle {
    /// A handle without a server.
    pub(crate) fn none(alloc: Global) -> Handle
        ensures { result.loose.value ≡ None }
    {
        Handle {
            loose: Loose::none(alloc),
            is_open: false,
        }
    }

    /// A handle that owns this box.
    pub(crate) fn of(value: Box<Kept>) -> Handle
        ensures { result.loose.value ≡ Some value.value }
    {
        Handle {
            loose: Loose::of_parts(Parts::of(value)),
            is_open: true,
        }
    }

    /// The server that a handle stands for.
    pub(crate) fn into_box(self) -> Option<Box<Kept>>
        ensures { self.loose.value ≡ option_map (λ found. found.value) result }
    {
        let Handle { loose, is_open } = self;
        if is_open {
            Some(loose.into_parts().into_box())
        } else {
            None
        }
    }

    /// Takes the server that a handle stands for. The handle is left with nothing.
    pub(crate) fn take(&mut self, alloc: Global) -> Option<Box<Kept>>
        ensures found { self.old.loose.value ≡ option_map (λ found. found.value) result }
        ensures left { self.new.loose.value ≡ None }
    {
        mem::replace(self, Handle::none(alloc)).into_box()
    }
}

impl Drop for Handle {
    fn drop(self) {
        drop(self.into_box());
    }
}
