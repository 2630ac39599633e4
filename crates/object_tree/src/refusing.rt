//! Refusals of objects, and of parents.
ghost use Rattle.std.specs.Prelude.{◌≡◌, None, Some, if◌then◌else◌};
ghost use Rattle.std.specs.Option.{option_map_or};
ghost use Rattle.std.specs.Result.{result_err};
ghost use Rattle.plain_types.specs.declared.code.Code.TheVariants.{NoSuchObject};
ghost use Rattle.shared_rows.specs.Table.{IsPlace};
ghost use Rattle.object_tree.specs.Refusing.{object_refusal, parent_refusal};
ghost use Rattle.object_tree.specs.Rows.{is_there};
ghost use Rattle.object_tree.specs.Table.{forest_at};

use crate::forests::Forests;
use plain_types::Code;

impl Forests {
    /// Refuses an object that is not there.
    pub fn check_object(&self, place: usize, object: u32) -> Result<(), Code>
        requires { IsPlace self.now place }
        ensures { result_err result ≡ (if is_there (forest_at self.now place).rows object then None else Some NoSuchObject) }
    {
        match self.row(place, object) {
            Some(_) => Ok(()),
            None => Err(Code::NoSuchObject),
        }
    }

    /// Checks that an object is there, where one is named.
    pub fn check_named(&self, place: usize, object: Option<u32>) -> Result<(), Code>
        requires { IsPlace self.now place }
        ensures { result_err result ≡ option_map_or (λ object.
            if is_there (forest_at self.now place).rows object then None else Some NoSuchObject) object None }
    {
        match object {
            Some(object) => self.check_object(place, object),
            None => Ok(()),
        }
    }

    /// Refuses an object that is not there or is being deleted.
    pub fn check_living(&self, place: usize, object: u32) -> Result<(), Code>
        requires { IsPlace self.now place }
        ensures { result_err result ≡ object_refusal (forest_at self.now place).rows object }
    {
        match self.row(place, object) {
            Some(row) => { if row.dying { Err(Code::Dying) } else { Ok(()) } }
            None => Err(Code::NoSuchObject),
        }
    }

    /// Refuses a parent that is not there or is being deleted, where there is to be one.
    pub fn check_parent(&self, place: usize, parent: Option<u32>) -> Result<(), Code>
        requires { IsPlace self.now place }
        ensures { result_err result ≡ parent_refusal (forest_at self.now place).rows parent }
    {
        match parent {
            Some(number) => self.check_living(place, number),
            None => Ok(()),
        }
    }
}
