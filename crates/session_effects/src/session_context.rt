//! The session for which a call is made.
use crate::setup::Setup;
use plain_types::Text;

/// The session that gives a command, and what is fixed for all of them.
#[derive(Clone, Copy)]
pub struct SessionContext<'a> {
    pub setup: &'a Setup,
    pub name: &'a Text,
    pub place: usize,
}
