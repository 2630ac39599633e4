//! A session receives posts from others.
use plain_types::{Items, Text};
use signature_core::Kind;
use variant_value::Value;

/// A published signal as it is sent: the name under which it was published, the kinds of its
/// parameters, and as many arguments.
#[derive(Drop)]
pub struct Post {
    pub name: Text,
    pub kinds: Items<Kind>,
    pub arguments: Items<Value>,
}
