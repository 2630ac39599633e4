//! The session that a query reads, within the tables of all sessions.
ghost use Rattle.session_tables.specs.Tables.{IsPlaced};

use session_effects::SessionContext;
use session_tables::Tables;

/// The session that a query reads, and the tables that hold it.
#[derive(Clone, Copy)]
pub struct SessionView<'a> {
    pub caller: &'a SessionContext<'a>,
    pub tables: &'a Tables,
    ghost placed: { IsPlaced tables.now caller.now.place },
}
