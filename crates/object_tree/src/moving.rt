//! Objects that get another parent.
ghost use Rattle.std.specs.Prelude.{◌≡◌, [], OnOk, OnErr};
ghost use Rattle.std.specs.Result.{result_err};
ghost use Rattle.shared_rows.specs.Table.{ChangesAt, IsPlace};
ghost use Rattle.shared_rows.specs.Links.{AreLinked};
ghost use Rattle.shared_rows.specs.Rows.{IsSound, rows_at};
ghost use Rattle.object_tree.specs.Rows.{is_same};
ghost use Rattle.object_tree.specs.Refusing.{cycle_refusal, keeps_parent, move_refusal, set_parent_refusal};
ghost use Rattle.object_tree.specs.Changes.{changed, reparented};
ghost use Rattle.object_tree.specs.Children.{child_of, rows_of};
ghost use Rattle.object_tree.specs.Table.{forest_at, with_forest};

use crate::child::{Child, child_of};
use crate::forests::Forests;
use crate::row::{DEPTH, Row};
use plain_types::Code;
use shared_rows::{Links, SharedRows};

impl Forests {
    /// Makes an object the last child of another parent, or the last root. Allocates nothing.
    ///
    /// It is refused with the first of these that applies: `NoSuchObject` or `Dying` for the object, then
    /// for the parent. If the object already has this parent, nothing changes. Otherwise: `Cycle` if the
    /// parent is the object or below it, `Limit` if the object or something below it would be below level
    /// 64, and `NumbersUsedUp` if the stamps have run out.
    pub fn set_parent(&mut self, place: usize, object: u32, parent: Option<u32>) -> Result<(), Code>
        requires { IsPlace self.old place }
        ensures refusal { result_err result ≡ set_parent_refusal (forest_at self.old place) object parent }
        ensures ok { OnOk result (self.new ≡ with_forest self.old place
            (reparented (forest_at self.old place) object parent)) }
        ensures err { OnErr result (self.new ≡ self.old) }
    {
        self.check_set_parent(place, object, parent)?;
        if !self.keeps_parent(place, object, parent) {
            let kinship = self.kinships.get_mut(place);
            kinship.last_stamp += 1;
            hang(
                &mut self.rows,
                &mut kinship.children,
                place,
                object,
                parent,
                kinship.last_stamp,
            );
        }
        Ok(())
    }

    /// Refuses to give an object another parent.
    #[tactic(auto, unfolding(crate::specs::Refusing::set_parent_refusal))]
    fn check_set_parent(&self, place: usize, object: u32, parent: Option<u32>) -> Result<(), Code>
        requires { IsPlace self.now place }
        ensures { result_err result ≡ set_parent_refusal (forest_at self.now place) object parent }
    {
        self.check_living(place, object)?;
        self.check_parent(place, parent)?;
        if self.keeps_parent(place, object, parent) {
            return Ok(());
        }
        self.check_move(place, object, parent)
    }

    /// Whether an object has a parent already.
    fn keeps_parent(&self, place: usize, object: u32, parent: Option<u32>) -> bool
        requires { IsPlace self.now place }
        ensures { result ≡ keeps_parent (forest_at self.now place).rows object parent }
    {
        is_same(self.parent_of(place, object), parent)
    }

    #[tactic(auto, unfolding(crate::specs::Refusing::move_refusal))]
    fn check_move(&self, place: usize, object: u32, parent: Option<u32>) -> Result<(), Code>
        requires { IsPlace self.now place }
        ensures { result_err result ≡ move_refusal (forest_at self.now place) object parent }
    {
        self.check_cycle(place, object, parent)?;
        // For the proof: a sound forest is small enough for the sum.
        self.law_sound(place);
        if self.depth_at(place, parent) + self.height(place, object) > DEPTH {
            return Err(Code::Limit);
        }
        if self.kinship(place).last_stamp == u64::MAX {
            return Err(Code::NumbersUsedUp);
        }
        Ok(())
    }

    fn check_cycle(&self, place: usize, object: u32, parent: Option<u32>) -> Result<(), Code>
        requires { IsPlace self.now place }
        ensures { result_err result ≡ cycle_refusal (forest_at self.now place).rows object parent }
    {
        match parent {
            Some(number) => {
                if self.is_below(place, object, number) {
                    Err(Code::Cycle)
                } else {
                    Ok(())
                }
            }
            None => Ok(()),
        }
    }
}

/// Gives an object a parent and a stamp. Allocates nothing.
pub(crate) fn hang(
    rows: &mut SharedRows<Row>,
    children: &mut Links<Child>,
    place: usize,
    object: u32,
    parent: Option<u32>,
    stamp: u64,
)
    requires place { IsPlace rows.old place }
    requires linked { AreLinked child_of (rows_of (rows_at rows.old place)) children.old.links }
    ensures elsewhere { ChangesAt [] place rows.old rows.new }
    ensures rows { rows_of (rows_at rows.new place) ≡ changed (λ row. record row { parent = parent; stamp = stamp }) object (rows_of (rows_at rows.old place)) }
    ensures linked { AreLinked child_of (rows_of (rows_at rows.new place)) children.new.links }
    ensures sound { IsSound (λ row. row.number) (rows_at rows.old place) }
{
    let Some(key) = rows.find(place, object as u64) else {
        return;
    };
    let row = *rows.get(place, key);
    let hung = Row {
        parent,
        stamp,
        ..row
    };
    rows.replace(place, key, hung);
    children.replace(child_of(row), child_of(hung));
}

/// Whether two parents are the same, or both absent.
fn is_same(a: Option<u32>, b: Option<u32>) -> bool
    ensures { result ≡ is_same a b }
{
    a == b
}
