//! The trees of objects.
ghost use Rattle.std.specs.Prelude.{◌≡◌, ◌+◌, ◌&&◌, IfOk, IsFalse, OnOk, OnErr, None};
ghost use Rattle.std.specs.Result.{result_err};
ghost use Rattle.plain_types.specs.Answers.{RefusedBy};
ghost use Rattle.object_tree.specs.Changes.{marked};
ghost use Rattle.object_tree.specs.Finding.{found_below};
ghost use Rattle.object_tree.specs.Refusing.{add_refusal, set_parent_refusal};
ghost use Rattle.session_model.specs.Showing.{changes};
ghost use Rattle.session_model.specs.State.{is_text, title_of, with_object, with_parent, without_object};
ghost use Rattle.session_model.specs.Absence.{absence};
ghost use Rattle.session_model.specs.Trees.{has_title, is_of_class};
ghost use Rattle.session_tables.specs.Classes.{HasClass};
ghost use Rattle.session_tables.specs.Refused.{OnRefused};
ghost use Rattle.session_tables.specs.Settled.{is_idle};
ghost use Rattle.session_tables.specs.Tables.{AreLaid, AreStored, ChangesOnly, IsPlaced, KeepsOthers, state_at, with_state};

use crate::tables::Tables;
use binding_values::Change;
use class_table::ClassTable;
use plain_types::{Code, Fault, Items, Text};
use property_store::Property;
use session_model::OBJECT_NAME;
use std::alloc::AllocError;

impl Tables {
    /// Makes an object below a parent, or a root, whose properties have their defaults, and returns its
    /// number. The refusals are those of [`Forests::add`](object_tree::Forests::add).
    #[tactic(auto, using(crate::proofs::TablesLemmas::changes_with))]
    pub fn make(&mut self, place: usize, parent: Option<u32>, class: u32) -> Result<u32, Fault>
        requires place { IsPlaced self.old place }
        requires stored { AreStored (state_at self.old place) }
        ensures refusal { RefusedBy (add_refusal (state_at self.old place).forest parent) result }
        ensures number { IfOk result (λ number. number ≡ (state_at self.old place).forest.last_number + 1) }
        ensures ok { OnOk result ((classes : _) → AreLaid classes self.old → self.new ≡ with_state self.old place
            (with_object classes (state_at self.old place) parent class)) }
        ensures refused { OnRefused result (self.new ≡ self.old) }
        ensures only { ChangesOnly place self.old self.new }
    {
        self.forests.law_sound(place);
        let number = self.forests.add(place, parent, class)?;
        self.stores.add_object(place, number, class)?;
        Ok(number)
    }

    /// Gives an object another parent, or makes it a root. The refusals are those of
    /// [`Forests::set_parent`](object_tree::Forests::set_parent).
    pub fn set_parent(&mut self, place: usize, object: u32, parent: Option<u32>) -> Result<(), Code>
        requires { IsPlaced self.old place }
        ensures refusal { result_err result ≡ set_parent_refusal (state_at self.old place).forest object parent }
        ensures ok { OnOk result (self.new ≡ with_state self.old place (with_parent (state_at self.old place) object parent)) }
        ensures err { OnErr result (self.new ≡ self.old) }
    {
        self.forests.set_parent(place, object, parent)
    }

    /// Marks an object as one that is being deleted.
    pub fn mark_dying(&mut self, place: usize, object: u32)
        requires { IsPlaced self.old place }
        ensures { self.new ≡ with_state self.old place (record (state_at self.old place) {
          forest = marked (state_at self.old place).forest object;
        }) }
    {
        self.forests.mark_dying(place, object);
    }

    /// Takes an object out with its properties and their bindings, and returns what has changed by it; its
    /// children become roots. Where nothing is bound and no group is open this takes no memory. It is never
    /// inlined, so that deletions which nest keep nothing of it on the stack.
    #[inline(never)]
    pub fn remove(&mut self, place: usize, object: u32) -> Result<Items<Change>, AllocError>
        requires { IsPlaced self.old place }
        ensures told { IfOk result (λ told. told ≡ changes (state_at self.old place) (state_at self.new place) None) }
        ensures ok { OnOk result (self.new ≡ with_state self.old place (without_object (state_at self.old place) object)) }
        ensures idle { OnErr result (IsFalse (is_idle (state_at self.old place).graph)) }
        ensures keeps { KeepsOthers place self.old self.new }
    {
        self.forests.remove(place, object);
        self.stores.drop_object(place, object)
    }

    /// The index of an object's class, where an object that is not there is refused.
    pub fn class_there(&self, place: usize, object: u32) -> Result<u32, Code>
        requires { IsPlaced self.now place }
        ensures refusal { result_err result ≡ absence (state_at self.now place) object }
        ensures class { IfOk result (λ class. HasClass (state_at self.now place) object class) }
    {
        match self.forests.row(place, object) {
            Some(row) => Ok(row.class),
            None => Err(Code::NoSuchObject),
        }
    }

    /// The nearest object below another one with this title.
    pub fn child(&self, place: usize, object: u32, title: &str) -> Result<Option<u32>, AllocError>
        requires { IsPlaced self.now place }
        ensures { IfOk result (λ found. found ≡ found_below (state_at self.now place).forest.rows object
            (λ number. is_text title.now (title_of (state_at self.now place) number))) }
    {
        self.forests.find_child(place, object, |number| self.is_titled(place, number, title))
    }

    /// The nearest object below another one, of this title and of this class or one below it, where
    /// these are given.
    pub fn find(
        &self,
        classes: &ClassTable,
        place: usize,
        object: u32,
        title: &Option<Text>,
        class: Option<u32>,
    ) -> Result<Option<u32>, AllocError>
        requires { IsPlaced self.now place }
        ensures { IfOk result (λ found. found ≡ found_below (state_at self.now place).forest.rows object
            (λ number. has_title (state_at self.now place) title.now number
            && is_of_class classes.now (state_at self.now place) class number)) }
    {
        self.forests.find_child(place, object, |number| {
            let titled = self.has_title(place, number, title)?;
            Ok(titled && self.is_of_class(classes, place, number, class))
        })
    }

    /// Whether an object has this text for its title, which is its property `objectName`.
    #[inline(always)]
    fn is_titled(&self, place: usize, object: u32, wanted: &str) -> Result<bool, AllocError>
        requires { IsPlaced self.now place }
        ensures { IfOk result (λ is. is ≡ is_text wanted.now (title_of (state_at self.now place) object)) }
    {
        let at = Property {
            object,
            number: OBJECT_NAME as usize,
        };
        self.stores.shows_text(place, at, wanted)
    }

    /// Whether an object has this title. True if no title is given.
    pub(crate) fn has_title(
        &self,
        place: usize,
        object: u32,
        title: &Option<Text>,
    ) -> Result<bool, AllocError>
        requires { IsPlaced self.now place }
        ensures { IfOk result (λ has. has ≡ has_title (state_at self.now place) title.now object) }
    {
        match title {
            Some(wanted) => self.is_titled(place, object, wanted.as_str()),
            None => Ok(true),
        }
    }

    /// Whether an object is of this class or one below it. True if no class is given.
    pub(crate) fn is_of_class(
        &self,
        classes: &ClassTable,
        place: usize,
        object: u32,
        class: Option<u32>,
    ) -> bool
        requires { IsPlaced self.now place }
        ensures { result ≡ is_of_class classes.now (state_at self.now place) class object }
    {
        let Some(base) = class else {
            return true;
        };
        match self.forests.row(place, object) {
            Some(row) => classes.inherits(row.class, base),
            None => false,
        }
    }
}
