//! How it is called.
ghost use Rattle.std.specs.Prelude.{◌≡◌};
ghost use Rattle.plain_types.specs.Modes.{mode_named};

/// How a connection's callee is called (`Qt::ConnectionType`).
#[derive(Clone, Copy, PartialEq, Eq)]
pub enum ConnectionType {
    /// Direct, since sender and receiver always live in one session.
    Auto,
    /// At once, while the signal is being sent.
    Direct,
    /// By an event that is posted to the session's queue.
    Queued,
}

impl ConnectionType {
    /// The type of this name, as class files and commands spell it.
    pub fn from_name(name: &str) -> Option<ConnectionType>
        ensures { result ≡ mode_named name.now }
    {
        match name {
            "auto" => Some(ConnectionType::Auto),
            "direct" => Some(ConnectionType::Direct),
            "queued" => Some(ConnectionType::Queued),
            _ => None,
        }
    }
}
