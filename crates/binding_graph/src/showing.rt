//! A showing lists the values that the properties of a place show.
ghost use Rattle.std.specs.Prelude.{◌≡◌, ◌<◌, [], OnErr, OnOk, vec_len};
ghost use Rattle.std.specs.Vec.{vec_capacity};
ghost use Rattle.variant_value.specs.Values.{IsOfKind};
ghost use Rattle.binding_graph.specs.Rows.{IsPut};
ghost use Rattle.binding_values.specs.Graph.{AreShown};

use binding_values::{Shown, find_place};
use std::alloc::{AllocError, Global};
use std::marker::Model;

/// A showing lists the values that properties show, by rising object and number.
#[derive(Drop)]
pub(crate) struct Showing {
    rows: Vec<Shown>,
}

impl Model for Showing {
    ghost use Rattle.std.specs.Prelude.{List};
    ghost use Rattle.binding_values.specs.declared.shown.Shown.{Shown};
    ghost use Rattle.binding_graph.specs.Coded.{coded_showing};

    ghost Value = { List Shown };

    ghost coded = { coded_showing };

    ghost use Rattle.binding_values.specs.Graph.{AreShown};

    ghost view = { λ showing. showing.rows.items };

    ghost invariant = { λ showing. AreShown showing.rows.items };
}

impl Showing {
    pub(crate) fn new(alloc: Global) -> Showing
        ensures { result ≡ [] }
    {
        Showing::from_rows(Vec::new(alloc))
    }

    /// Rows that are in order.
    pub(crate) fn from_rows(rows: Vec<Shown>) -> Showing
        requires { AreShown rows.items }
        ensures { result ≡ rows.items }
    {
        Showing { rows }
    }

    pub(crate) fn rows(&self) -> &[Shown]
        ensures rows { result.now ≡ self.now }
        ensures sound { AreShown self.now }
    {
        self.rows.as_slice()
    }

    pub(crate) fn into_rows(self) -> Vec<Shown>
        ensures rows { result.items ≡ self }
        ensures sound { AreShown result.items }
    {
        let Showing { rows } = self;
        rows
    }

    /// Inserts what a property shows, or replaces what it showed.
    pub(crate) fn put(&mut self, row: Shown) -> Result<(), AllocError>
        requires { IsOfKind row.kind row.value }
        ensures put { OnOk result (IsPut row self.old self.new) }
        ensures sound { OnOk result (AreShown self.new) }
        ensures err { OnErr result (self.new ≡ self.old) }
    {
        self.rows.reserve(1)?;
        put_reserved(&mut self.rows, row);
        Ok(())
    }
}

/// Inserts a row in order, or replaces that of its property. The caller has reserved room.
fn put_reserved(rows: &mut Vec<Shown>, row: Shown)
    requires sound { AreShown rows.old.items }
    requires fits { IsOfKind row.kind row.value }
    requires room { vec_len rows.old < vec_capacity rows.old }
    ensures put { IsPut row rows.old.items rows.new.items }
    ensures sound { AreShown rows.new.items }
{
    match find_place(rows.as_slice(), row.at) {
        Ok(place) => rows[place] = row,
        Err(place) => {
            if rows.insert(place, row).is_err() {
                unreachable!();
            }
        }
    }
}
