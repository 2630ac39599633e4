//! All objects below another one.
ghost use Rattle.std.specs.Prelude.{◌≡◌, IfOk, Some, length};
ghost use Rattle.shared_rows.specs.Table.{IsPlace};
ghost use Rattle.object_tree.specs.Finding.{below_by_depth};
ghost use Rattle.object_tree.specs.Rows.{children};
ghost use Rattle.object_tree.specs.Table.{forest_at};

use crate::forests::Forests;
use std::alloc::AllocError;

impl Forests {
    /// All objects below another one, those of the least depth first, and those of one depth in
    /// preorder.
    #[tactic(auto, unfolding(crate::specs::Finding::below_by_depth))]
    pub fn below(&self, place: usize, object: u32) -> Result<Vec<u32>, AllocError>
        requires { IsPlace self.now place }
        ensures { IfOk result (λ found. found.items ≡ below_by_depth (forest_at self.now place).rows object) }
    {
        let mut found = Vec::new(self.alloc);
        let mut level = self.children(place, Some(object))?;
        'levels: for _step in 0..self.count(place) {
            let numbers = level.as_slice();
            if numbers.is_empty() {
                return Ok(found);
            }
            found.extend_from_slice(numbers)?;
            level = self.children_of(place, numbers)?;
        }
        Ok(found)
    }

    /// How many children an object has.
    pub fn count_children(&self, place: usize, object: u32) -> usize
        requires { IsPlace self.now place }
        ensures { result ≡ length (children (forest_at self.now place).rows (Some object)) }
    {
        let kids = self.kids(place, Some(object), self.near(place));
        kids.end - kids.start
    }
}
