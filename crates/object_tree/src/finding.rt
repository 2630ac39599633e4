//! The children of objects, the search among them, and how many levels are below them.
ghost use Rattle.std.specs.Prelude.{◌≡◌, ◌++◌, ◌≤◌, IfOk, OnOk, ℕ, Bool, find, length, map};
ghost use Rattle.shared_rows.specs.Table.{IsPlace};
ghost use Rattle.object_tree.specs.Children.{AreWithin, kids_of};
ghost use Rattle.object_tree.specs.Rows.{children};
ghost use Rattle.object_tree.specs.Lines.{height, levels_within};
ghost use Rattle.object_tree.specs.Finding.{AnswersBy, IsNearest, children_of, found_below};
ghost use Rattle.object_tree.specs.Table.{forest_at};

use crate::child::{Kids, Near, group, order_of};
use crate::forests::Forests;
use std::alloc::AllocError;

impl Forests {
    /// The children of a parent, in the order in which they were added to it. Without a parent, the roots.
    pub fn children(&self, place: usize, parent: Option<u32>) -> Result<Vec<u32>, AllocError>
        requires { IsPlace self.now place }
        ensures { IfOk result (λ found. found.items ≡ children (forest_at self.now place).rows parent) }
    {
        let mut found = Vec::new(self.alloc);
        let kids = self.kids(place, parent, self.near(place));
        append_numbers(&mut found, kids)?;
        Ok(found)
    }

    /// Where children are looked for first: where the last change was.
    pub(crate) fn near(&self, place: usize) -> Near
        requires { IsPlace self.now place }
    {
        let children = &self.kinship(place).children;
        Near::before(children.as_buffer().last_change())
    }

    /// The children of a parent, by age.
    #[inline(always)]
    pub(crate) fn kids(&self, place: usize, parent: Option<u32>, near: Near) -> Kids<'_>
        requires { IsPlace self.now place }
        ensures kids { map (λ child. child.number) (kids_of result) ≡ children (forest_at self.now place).rows parent }
        ensures within { AreWithin result }
    {
        let all = self.kinships.get(place).children.as_buffer();
        if parent == Some(0) {
            return Kids {
                all,
                start: 0,
                end: 0,
            };
        }
        group(all, order_of(parent), near)
    }

    /// The children of all of these, in their order.
    pub(crate) fn children_of(&self, place: usize, level: &[u32]) -> Result<Vec<u32>, AllocError>
        requires { IsPlace self.now place }
        ensures { IfOk result (λ found. found.items ≡ children_of (forest_at self.now place).rows level.now) }
    {
        let mut found = Vec::new(self.alloc);
        let mut near = Near::before(0);
        'numbers: for number in level {
            let kids = self.kids(place, Some(*number), near);
            near = near.behind(kids);
            append_numbers(&mut found, kids)?;
        }
        Ok(found)
    }

    /// The object below another one at the least depth that passes, among equals the first in
    /// preorder. An `AllocError` of the test is returned as it is.
    ///
    /// The clauses speak of every `passes` that gives what the test returns: `levels` says which object
    /// is found by the levels, and `nearest` that this is the one in depth and preorder.
    #[tactic(auto, unfolding(crate::specs::Finding::found_below))]
    pub fn find_child<F>(
        &self,
        place: usize,
        object: u32,
        test: F,
    ) -> Result<Option<u32>, AllocError>
    where
        F: Fn(u32) -> Result<bool, AllocError>,
        requires place { IsPlace self.now place }
        requires callable { F.IsAlwaysCallable test }
        ensures levels { (passes : ℕ → Bool) → AnswersBy (F.post test) passes
            → IfOk result (λ found. found ≡ found_below (forest_at self.now place).rows object passes) }
        ensures nearest { (passes : ℕ → Bool) → AnswersBy (F.post test) passes
            → IfOk result (λ found. IsNearest (forest_at self.now place).rows object passes found) }
    {
        // For the proof: in a sound forest the first by levels is the nearest.
        self.law_sound(place);
        self.find_below(place, object, &test)
    }

    /// The first match on the first level below an object that has one.
    #[tactic(auto, unfolding(crate::specs::Finding::found_below))]
    fn find_below<F>(&self, place: usize, object: u32, test: &F) -> Result<Option<u32>, AllocError>
    where
        F: Fn(u32) -> Result<bool, AllocError>,
        requires place { IsPlace self.now place }
        requires callable { F.IsAlwaysCallable test.now }
        ensures { (passes : ℕ → Bool) → AnswersBy (F.post test.now) passes
            → IfOk result (λ found. found ≡ found_below (forest_at self.now place).rows object passes) }
    {
        let mut level = self.children(place, Some(object))?;
        'levels: for _step in 0..self.count(place) {
            let numbers = level.as_slice();
            if numbers.is_empty() {
                return Ok(None);
            }
            let found = first_match(numbers, test)?;
            if found.is_some() {
                return Ok(found);
            }
            level = self.children_of(place, numbers)?;
        }
        Ok(None)
    }

    /// How many levels hang at an object and below it.
    #[tactic(auto, unfolding(crate::specs::Lines::height))]
    pub(crate) fn height(&self, place: usize, number: u32) -> usize
        requires { IsPlace self.now place }
        ensures value { result ≡ height (forest_at self.now place).rows number }
        ensures bound { result ≤ length (forest_at self.now place).rows }
    {
        let mut near = self.near(place);
        self.levels_within(place, self.count(place), number, &mut near)
    }

    /// How many levels there are, counted to this many.
    #[tactic(auto, using(crate::proofs::HeightLemmas::levels_end, crate::proofs::HeightLemmas::greatest_more))]
    fn levels_within(&self, place: usize, most: usize, number: u32, near: &mut Near) -> usize
        requires { IsPlace self.now place }
        ensures value { result ≡ levels_within most (forest_at self.now place).rows number }
        ensures bound { result ≤ most }
    {
        if most == 0 {
            return 0;
        }
        let kids = self.kids(place, Some(number), *near);
        *near = near.behind(kids);
        let mut below = 0;
        'kids: for at in kids.start..kids.end {
            let child = kids.all.get(at);
            below = below.max(self.levels_within(place, most - 1, child.number, near));
        }
        1 + below
    }
}

/// Appends the numbers of some children.
#[inline(always)]
fn append_numbers(found: &mut Vec<u32>, kids: Kids<'_>) -> Result<(), AllocError>
    requires { AreWithin kids }
    ensures { OnOk result (found.new.items ≡ found.old.items ++ map (λ child. child.number) (kids_of kids.entry)) }
{
    if kids.start == kids.end {
        return Ok(());
    }
    found.reserve(kids.end - kids.start)?;
    'kids: for at in kids.start..kids.end {
        found.push_reserved(kids.all.get(at).number);
    }
    Ok(())
}

/// The first number of a level that passes.
fn first_match<F>(level: &[u32], test: &F) -> Result<Option<u32>, AllocError>
where
    F: Fn(u32) -> Result<bool, AllocError>,
    requires { F.IsAlwaysCallable test.now }
    ensures { (passes : ℕ → Bool) → AnswersBy (F.post test.now) passes
        → IfOk result (λ found. found ≡ find passes level.now) }
{
    'numbers: for number in level {
        if test(*number)? {
            return Ok(Some(*number));
        }
    }
    Ok(None)
}
