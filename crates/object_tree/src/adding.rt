//! New objects.
ghost use Rattle.std.specs.Prelude.{◌≡◌, ◌+◌, IfOk, OnOk, OnErr};
ghost use Rattle.std.specs.Result.{result_err};
ghost use Rattle.shared_rows.specs.Table.{IsPlace};
ghost use Rattle.plain_types.specs.Answers.{RefusedBy};
ghost use Rattle.object_tree.specs.Refusing.{add_refusal};
ghost use Rattle.object_tree.specs.Changes.{added};
ghost use Rattle.object_tree.specs.Table.{forest_at, with_forest};

use crate::child::child_of;
use crate::forests::Forests;
use crate::row::{DEPTH, OBJECTS, Row};
use plain_types::{Code, Fault};

impl Forests {
    /// Adds an object, and returns its number.
    ///
    /// It is refused with the first of these that applies: `NoSuchObject` if the parent does not exist,
    /// `Dying` if it is dying, `Limit` if the place holds 4,096 objects or the parent is on level 64, and
    /// `NumbersUsedUp` if the numbers or the stamps have run out.
    pub fn add(&mut self, place: usize, parent: Option<u32>, class: u32) -> Result<u32, Fault>
        requires { IsPlace self.old place }
        ensures refusal { RefusedBy (add_refusal (forest_at self.old place) parent) result }
        ensures number { IfOk result (λ number. number ≡ (forest_at self.old place).last_number + 1) }
        ensures ok { OnOk result (self.new ≡ with_forest self.old place
            (added (forest_at self.old place) parent class)) }
        ensures err { OnErr result (self.new ≡ self.old) }
    {
        self.check_add(place, parent)?;
        let kinship = self.kinships.get_mut(place);
        let row = Row {
            number: kinship.last_number + 1,
            class,
            parent,
            stamp: kinship.last_stamp + 1,
            dying: false,
            blocked: false,
        };
        kinship.children.reserve()?;
        self.rows.push(place, row)?;
        kinship.last_number = row.number;
        kinship.last_stamp = row.stamp;
        kinship.children.insert_reserved(child_of(row));
        Ok(row.number)
    }

    /// Refuses to add an object below a parent.
    #[tactic(auto, unfolding(crate::specs::Refusing::add_refusal))]
    fn check_add(&self, place: usize, parent: Option<u32>) -> Result<(), Code>
        requires { IsPlace self.now place }
        ensures { result_err result ≡ add_refusal (forest_at self.now place) parent }
    {
        self.check_parent(place, parent)?;
        if self.count(place) >= OBJECTS || self.depth_at(place, parent) >= DEPTH {
            return Err(Code::Limit);
        }
        let kinship = self.kinship(place);
        if kinship.last_number == u32::MAX || kinship.last_stamp == u64::MAX {
            return Err(Code::NumbersUsedUp);
        }
        Ok(())
    }
}
