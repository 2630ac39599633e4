//! Objects are listed by what they are.
ghost use Rattle.std.specs.Prelude.{◌≡◌, ◌&&◌, IfOk, filter};
ghost use Rattle.object_tree.specs.Finding.{below_by_depth};
ghost use Rattle.session_model.specs.Trees.{has_title, is_of_class};
ghost use Rattle.session_tables.specs.Tables.{IsPlaced, state_at};

use crate::tables::Tables;
use class_table::ClassTable;
use plain_types::{Items, Text};
use std::alloc::{AllocError, Global};

impl Tables {
    /// All objects below another one, of this title and of this class or one below it, where these are
    /// given, the nearest first.
    pub fn find_all(
        &self,
        alloc: Global,
        classes: &ClassTable,
        place: usize,
        object: u32,
        title: &Option<Text>,
        class: Option<u32>,
    ) -> Result<Items<u32>, AllocError>
        requires { IsPlaced self.now place }
        ensures { IfOk result (λ found. found ≡ filter (λ number. has_title (state_at self.now place) title.now number
            && is_of_class classes.now (state_at self.now place) class number)
            (below_by_depth (state_at self.now place).forest.rows object)) }
    {
        let below = self.forests.below(place, object)?;
        let mut found = Items::new(alloc);
        'below: for number in below.as_slice() {
            if self.is_found(classes, place, *number, title, class)? {
                found.push(*number)?;
            }
        }
        Ok(found)
    }

    /// Whether an object has this title and is of this class or one below it, where these are given.
    fn is_found(
        &self,
        classes: &ClassTable,
        place: usize,
        object: u32,
        title: &Option<Text>,
        class: Option<u32>,
    ) -> Result<bool, AllocError>
        requires { IsPlaced self.now place }
        ensures { IfOk result (λ found. found ≡ (has_title (state_at self.now place) title.now object
            && is_of_class classes.now (state_at self.now place) class object)) }
    {
        let titled = self.has_title(place, object, title)?;
        Ok(titled && self.is_of_class(classes, place, object, class))
    }
}
