//! Clients give commands.
use crate::query::Query;
use event_queue::Priority;
use plain_types::{ConnectionType, Items, Text};

/// A command of a session.
#[derive(Drop)]
pub enum Command {
    /// Makes an object of a class, below a parent or as a root, and replies its number.
    New {
        class: Text,
        parent: Option<u32>,
    },
    /// Deletes an object and all below it.
    Delete {
        object: u32,
    },
    /// Gives an object another parent, or makes it a root.
    SetParent {
        object: u32,
        parent: Option<u32>,
    },
    /// Writes a property of an object, and replies whether its class declares one of this name. Any other name is
    /// that of a dynamic property, which null removes (`QObject::setProperty`). The value is any JSON.
    Set {
        object: u32,
        property: Text,
        value: serde_json::Value,
    },
    /// Connects a signal of an object to a method of another, which may be the same, and replies the
    /// connection's number.
    Connect {
        sender: u32,
        signal: Text,
        receiver: u32,
        method: Text,
        mode: ConnectionType,
        /// Refused where the same is connected already (`Qt::UniqueConnection`).
        unique: bool,
        /// Removed before its method is first called (`Qt::SingleShotConnection`).
        single: bool,
    },
    /// Connects a signal of an object to a functor, which runs for a context object, and replies the
    /// connection's number. When the context is deleted, the connection goes.
    ConnectFunctor {
        sender: u32,
        signal: Text,
        context: u32,
        functor: Text,
        mode: ConnectionType,
        /// Refused: functors cannot be compared (`Qt::UniqueConnection`).
        unique: bool,
        /// Removed before its functor is first called (`Qt::SingleShotConnection`).
        single: bool,
    },
    /// Breaks the connection of this number, and replies whether it existed.
    DisconnectOne {
        connection: u32,
    },
    /// Breaks all connections of a sender that match, and replies how many. A signal, receiver or method that is
    /// not named matches any. A method is named only together with a receiver.
    Disconnect {
        sender: u32,
        signal: Option<Text>,
        receiver: Option<u32>,
        method: Option<Text>,
    },
    /// Calls a slot of an object or sends a signal of it, and replies whether it has such a method.
    Invoke {
        object: u32,
        method: Text,
        args: Items<serde_json::Value>,
        /// With `Queued` the call is posted as an event.
        mode: ConnectionType,
        /// How soon the event is taken.
        priority: Priority,
    },
    /// Takes events until the queue is empty or the turns are used up, and replies how many were taken, how many
    /// are left, and how many calls were ever lost.
    Spin,
    /// Posts the deletion of an object (`QObject::deleteLater`).
    DeleteLater {
        object: u32,
    },
    /// Blocks the signals of an object, or lets them through, and replies whether they were blocked
    /// (`QObject::blockSignals`).
    Block {
        object: u32,
        on: bool,
    },
    /// Publishes a signal of an object under a name: each time it is sent, every other session gets it that
    /// has joined this name.
    Publish {
        object: u32,
        signal: Text,
        name: Text,
    },
    /// Publishes nothing under this name any more, and replies whether something was.
    Unpublish {
        name: Text,
    },
    /// Lets what the session `from` publishes under a name call a method of an object, by an event of this
    /// session, whether it publishes anything yet or not. The types are those of the signal's parameters.
    Join {
        from: Text,
        name: Text,
        types: Items<Text>,
        object: u32,
        method: Text,
    },
    /// Takes the joins out that were made with these four, and replies whether there was one.
    Leave {
        from: Text,
        name: Text,
        object: u32,
        method: Text,
    },
    /// Puts the session back to where it was before its first command, also where it has failed.
    Reset,
    /// Binds a property to an expression, and replies true.
    Bind {
        object: u32,
        property: Text,
        to: serde_json::Value,
    },
    /// Binds a property no longer, and replies whether it was bound. It keeps the value that it has.
    Unbind {
        object: u32,
        property: Text,
    },
    /// Begins a group, which holds back the notifications of property changes, and replies how many are open.
    Begin,
    /// Ends a group, and replies how many are left. Ending the outermost group notifies of all that has changed
    /// since it began.
    End,
    /// Replies what it asks for. The session stays unchanged.
    Ask(Query),
}

/// A command with the name of the session that gives it.
pub struct Tagged {
    pub session: Text,
    pub command: Command,
}

// Each scope that drops a command calls this, where a derived `Drop` would have all forms proved there.
impl Drop for Tagged {
    fn drop(self) {
        let Tagged {
            session: _,
            command: _,
        } = self;
    }
}
