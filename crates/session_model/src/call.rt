//! The calls of slots and functors that clients are notified of.
use plain_types::Text;
use variant_value::Args;

/// How deep signals are nested at most: one that is sent at this depth calls nothing.
pub const NESTED_SIGNALS: u32 = 64;

/// The index of the signal `destroyed()` among the methods of every class: those of `QObject` come first.
pub const DESTROYED: u32 = 0;

/// The number of the property `objectName` among the properties of every class: those of `QObject` come
/// first.
pub const OBJECT_NAME: u32 = 0;

/// A slot or a functor as it is called.
pub struct Call {
    /// The normal text of the slot's signature, or the functor's name.
    pub method: Text,
    /// The object whose slot it is, or the functor's context object.
    pub object: u32,
    /// The object that sent the signal, or 0 where a command calls the slot.
    pub sender: u32,
    /// The values of the slot's parameters.
    pub args: Args,
}

impl Drop for Call {
    fn drop(self) {
        let Call {
            method: _,
            object: _,
            sender: _,
            args: _,
        } = self;
    }
}
