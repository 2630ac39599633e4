use plain_types::Text;
use session_model::{Command, Post};

/// A session receives items: a command of its own, or a post of another session.
#[derive(Drop)]
pub enum Item {
    Own(Command),
    /// The name of the session that has posted, and its post. A post has as many arguments as kinds, each of
    /// its kind.
    Arrival(Text, Post),
}
