//! Keys of commands, and what they hold.

/// The most keys that a command has, not counting those that every command has.
pub(crate) const MOST_KEYS: usize = 7;

/// A key holds a value of one of these sorts.
#[derive(Clone, Copy)]
pub enum Holds {
    /// A name: of a class, a property, a functor, a session or a publication.
    Name,
    /// Any text.
    Text,
    /// The number of an object or of a connection.
    Number,
    /// The number of an object, or null for none.
    NumberOrNull,
    /// True or false.
    Truth,
    /// How calls are made: `auto`, `direct` or `queued`.
    Mode,
    /// How soon an event is taken: -1, 0 or 1.
    Priority,
    /// An array of any JSON.
    List,
    /// A property of an object: an object with exactly the keys `object`, a number, and `property`, a name.
    Property,
    /// Any JSON.
    Any,
}

/// A key of a command, which may be optional.
#[derive(Clone, Copy)]
pub enum Key {
    Needed(&'static str, Holds),
    Optional(&'static str, Holds),
}

impl Key {
    ghost use Rattle.std.specs.Prelude.{◌≡◌};
    ghost use Rattle.wire_commands.specs.Keys.{key_seen, key_word};

    pub(crate) fn word(&self) -> &'static str
        ensures { result.now ≡ key_word (key_seen self.now) }
    {
        match self {
            Key::Needed(word, _) => word,
            Key::Optional(word, _) => word,
        }
    }
}
