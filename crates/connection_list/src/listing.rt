//! The connections of a place are listed and counted in one pass over them.
ghost use Rattle.std.specs.Prelude.{◌≡◌, ◌==◌, ◌∷◌, ◌++◌, [], IfOk, OnOk, count_by, filter, if◌then◌else◌};
ghost use Rattle.shared_rows.specs.Table.{IsPlace};
ghost use Rattle.connection_list.specs.Rows.{is_listed, listed};
ghost use Rattle.connection_list.specs.Table.{rows_at};

use crate::connection::Connection;
use crate::limit::LISTED;
use crate::table::Connections;
use plain_types::Items;
use std::alloc::AllocError;

/// How many connections have an object at each of their ends.
#[derive(Clone, Copy)]
pub struct EndCounts {
    pub sent: u32,
    pub received: u32,
}

impl Connections {
    /// Copies of the connections above a number, by rising number, at most `LISTED`: where an object is
    /// named, of those that have it at either end.
    pub fn listed(
        &self,
        place: usize,
        object: Option<u32>,
        after: u32,
    ) -> Result<Items<Connection>, AllocError>
        requires { IsPlace self.now place }
        ensures { IfOk result (λ found. found ≡ listed object after (rows_at self.now place).rows) }
    {
        let mut found = Items::new(self.alloc);
        'rows: for position in 0..self.rows.len(place) {
            if found.len() == LISTED {
                return Ok(found);
            }
            let (_, row) = self.rows.at(place, position);
            add_listed(&mut found, object, after, row)?;
        }
        Ok(found)
    }

    /// How many connections have an object as their sender, and how many as their receiver.
    pub fn end_counts(&self, place: usize, object: u32) -> EndCounts
        requires { IsPlace self.now place }
        ensures sent { result.sent ≡ count_by (λ row. row.sender == object) (rows_at self.now place).rows }
        ensures received { result.received ≡ count_by (λ row. row.receiver == object) (rows_at self.now place).rows }
    {
        let mut sent = 0;
        let mut received = 0;
        'rows: for position in 0..self.rows.len(place) {
            let (_, row) = self.rows.at(place, position);
            sent += one_where(row.sender == object);
            received += one_where(row.receiver == object);
        }
        EndCounts { sent, received }
    }
}

/// One where a test holds, and else none.
fn one_where(holds: bool) -> u32
    ensures { result ≡ (if holds then 1 else 0) }
{
    if holds { 1 } else { 0 }
}

/// Adds a connection where it is listed.
fn add_listed(
    found: &mut Items<Connection>,
    object: Option<u32>,
    after: u32,
    row: &Connection,
) -> Result<(), AllocError>
    ensures { OnOk result (found.new ≡ found.old ++ filter (is_listed object after) (row.now ∷ [])) }
{
    if is_listed(object, after, row) {
        found.push(*row)?;
    }
    Ok(())
}

/// Whether a connection has a greater number, and the object at either end where one is named.
fn is_listed(object: Option<u32>, after: u32, row: &Connection) -> bool
    ensures { result ≡ is_listed object after row.now }
{
    if row.number <= after {
        return false;
    }
    match object {
        Some(named) => row.sender == named || row.receiver == named,
        None => true,
    }
}
