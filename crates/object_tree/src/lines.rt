//! Lines: an object and its ancestors.
ghost use Rattle.std.specs.Prelude.{◌≡◌, ◌≤◌, length};
ghost use Rattle.shared_rows.specs.Table.{IsPlace};
ghost use Rattle.object_tree.specs.Rows.{parent_of};
ghost use Rattle.object_tree.specs.Lines.{depth, depth_at, is_below};
ghost use Rattle.object_tree.specs.Table.{forest_at};

use crate::forests::Forests;

impl Forests {
    /// The parent of an object, where it is there and has one.
    pub(crate) fn parent_of(&self, place: usize, number: u32) -> Option<u32>
        requires { IsPlace self.now place }
        ensures { result ≡ parent_of (forest_at self.now place).rows number }
    {
        self.row(place, number)?.parent
    }

    /// The level of an object.
    #[tactic(auto, unfolding(crate::specs::Lines::line))]
    pub fn depth(&self, place: usize, number: u32) -> usize
        requires { IsPlace self.now place }
        ensures value { result ≡ depth (forest_at self.now place).rows number }
        ensures bound { result ≤ length (forest_at self.now place).rows }
    {
        let mut depth = 0;
        let mut at = Some(number);
        'levels: for _step in 0..self.count(place) {
            let Some(above) = at else {
                return depth;
            };
            depth += 1;
            at = self.parent_of(place, above);
        }
        depth
    }

    /// The level of a parent, or 0 without a parent.
    pub(crate) fn depth_at(&self, place: usize, parent: Option<u32>) -> usize
        requires { IsPlace self.now place }
        ensures value { result ≡ depth_at (forest_at self.now place).rows parent }
        ensures bound { result ≤ length (forest_at self.now place).rows }
    {
        match parent {
            Some(number) => self.depth(place, number),
            None => 0,
        }
    }

    /// Whether an object is another one or below it.
    #[tactic(auto, unfolding(crate::specs::Lines::line))]
    pub(crate) fn is_below(&self, place: usize, base: u32, number: u32) -> bool
        requires { IsPlace self.now place }
        ensures { result ≡ is_below (forest_at self.now place).rows base number }
    {
        let mut at = Some(number);
        'levels: for _step in 0..self.count(place) {
            let Some(above) = at else {
                return false;
            };
            if base == above {
                return true;
            }
            at = self.parent_of(place, above);
        }
        false
    }
}
