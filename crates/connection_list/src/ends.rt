//! These functions ask about a connection's two ends.
ghost use Rattle.std.specs.Prelude.{◌≡◌};
ghost use Rattle.connection_list.specs.Ends.{allows, allows_method, allows_receiver, same_ends, matches, calls_functor};

use crate::connection::{Connection, NewConnection};
use crate::pattern::{Pattern, Receiver};
use plain_types::Callee;

/// Whether a new connection would join what another joins already.
pub fn same_ends(new: &NewConnection, row: &Connection) -> bool
    ensures { result ≡ same_ends new.now row.now }
{
    new.sender == row.sender
        && new.signal == row.signal
        && new.receiver == row.receiver
        && new.callee == row.callee
}

/// Whether a connection matches a pattern.
pub fn matches(pattern: &Pattern, row: &Connection) -> bool
    ensures { result ≡ matches pattern.now row.now }
{
    pattern.sender == row.sender
        && allows(pattern.signal, row.signal)
        && allows_receiver(pattern.receiver, row)
}

fn allows(wanted: Option<u32>, number: u32) -> bool
    ensures { result ≡ allows wanted number }
{
    match wanted {
        Some(wanted) => wanted == number,
        None => true,
    }
}

fn allows_receiver(wanted: Option<Receiver>, row: &Connection) -> bool
    ensures { result ≡ allows_receiver wanted row.now }
{
    match wanted {
        Some(wanted) => {
            wanted.object == row.receiver && allows_method(wanted.method, row.callee)
        }
        None => true,
    }
}

fn allows_method(wanted: Option<u32>, callee: Callee) -> bool
    ensures { result ≡ allows_method wanted callee }
{
    match (wanted, callee) {
        (None, _) => true,
        (Some(wanted), Callee::Method(index)) => wanted == index,
        (Some(_), Callee::Functor(_)) => false,
    }
}

/// Whether the callee is a functor.
pub(crate) fn calls_functor(callee: Callee) -> bool
    ensures { result ≡ calls_functor callee }
{
    match callee {
        Callee::Method(_) => false,
        Callee::Functor(_) => true,
    }
}
