//! Operations are done to a session, whoever asks for them.
use connection_list::{NewConnection, Pattern};

/// A command or an action does an operation, once each object that it concerns is known.
#[derive(Clone, Copy)]
pub enum Operation {
    /// Makes a connection, and answers its number. A unique one is refused where the same is there.
    Connect { new: NewConnection, unique: bool },
    /// Breaks the connections that match, and answers how many.
    Disconnect { pattern: Pattern },
    /// Gives an object another parent, or makes it a root.
    SetParent { object: u32, parent: Option<u32> },
    /// Posts the deletion of an object (`QObject::deleteLater`).
    DeleteLater { object: u32 },
    /// Blocks the signals of an object, or lets them through, and answers whether they were blocked
    /// (`QObject::blockSignals`).
    Block { object: u32, on: bool },
}
