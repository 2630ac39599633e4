//! Reads members that several commands have: nothing, an object, a property, a class, or a search.
ghost use Rattle.std.specs.Prelude.{◌≡◌, ℕ, IfOk, List, None, Option, Some, if◌then◌else◌, option_map};
ghost use Rattle.serde_json.specs.Data.{object};
ghost use Rattle.json_reading.specs.Members.{members_in};
ghost use Rattle.session_model.specs.Asked.{Asked};
ghost use Rattle.wire_commands.specs.Form.{asked_in};
ghost use Rattle.wire_commands.specs.Shared.{alone, of_class, of_object, of_property, of_search};

use crate::held::{Held, held_by};
use crate::keys::{Holds, Key};
use json_reading::Member;
use plain_types::Text;
use std::alloc::{AllocError, Global};

const NOTHING: [Key; 0] = [];

/// Whether a line has no keys but those that every command has.
#[tactic(auto, unfolding(crate::specs::Shared::alone))]
pub(crate) fn is_alone(members: &[Member<'_>]) -> bool
    ensures { (word : List ℕ) (asks : Asked) → asked_in (alone word asks) (object (members_in members.now)) ≡ (if result then Some asks else None) }
{
    held_by(members, &NOTHING, &mut [])
}

const OBJECT: [Key; 1] = [Key::Needed("object", Holds::Number)];

/// The object of a command that needs nothing else.
#[tactic(auto, unfolding(crate::specs::Shared::of_object))]
pub(crate) fn object_in(members: &[Member<'_>]) -> Option<u32>
    ensures { (word : List ℕ) (asks : ℕ → Asked) → asked_in (of_object word asks) (object (members_in members.now)) ≡ option_map asks result }
{
    let mut held = [Held::Absent; 1];
    if !held_by(members, &OBJECT, &mut held) {
        return None;
    }
    let [object] = held;
    object.number()
}

const PROPERTY: [Key; 2] = [
    Key::Needed("object", Holds::Number),
    Key::Needed("property", Holds::Name),
];

/// The object of a command that needs nothing but a property, and the property's name.
#[tactic(auto, unfolding(crate::specs::Shared::of_property))]
pub(crate) fn property_in(
    alloc: Global,
    members: &[Member<'_>],
) -> Result<Option<(u32, Text)>, AllocError>
    ensures { IfOk result (λ found. (word : List ℕ) (asks : ℕ → List ℕ → Asked)
        → asked_in (of_property word asks) (object (members_in members.now)) ≡ option_map (λ it. asks it.0 it.1) found) }
{
    let mut held = [Held::Absent; 2];
    if !held_by(members, &PROPERTY, &mut held) {
        return Ok(None);
    }
    let [object, property] = held;
    let Some(object) = object.number() else {
        return Ok(None);
    };
    let Some(property) = property.text(alloc)? else {
        return Ok(None);
    };
    Ok(Some((object, property)))
}

const CLASS: [Key; 1] = [Key::Needed("class", Holds::Name)];

/// The class of a command that needs nothing else.
#[tactic(auto, unfolding(crate::specs::Shared::of_class))]
pub(crate) fn class_in(alloc: Global, members: &[Member<'_>]) -> Result<Option<Text>, AllocError>
    ensures { IfOk result (λ class. (word : List ℕ) (asks : List ℕ → Asked)
        → asked_in (of_class word asks) (object (members_in members.now)) ≡ option_map asks class) }
{
    let mut held = [Held::Absent; 1];
    if !held_by(members, &CLASS, &mut held) {
        return Ok(None);
    }
    let [class] = held;
    class.text(alloc)
}

/// A search below an object: for any object, or for one of a name, of a class, or of both.
pub(crate) struct Search {
    pub(crate) object: u32,
    pub(crate) name: Option<Text>,
    pub(crate) class: Option<Text>,
}

const SEARCH: [Key; 3] = [
    Key::Needed("object", Holds::Number),
    Key::Optional("name", Holds::Text),
    Key::Optional("class", Holds::Name),
];

/// Reads the search of a command.
#[tactic(auto, unfolding(crate::specs::Shared::of_search))]
pub(crate) fn search_in(alloc: Global, members: &[Member<'_>]) -> Result<Option<Search>, AllocError>
    ensures { IfOk result (λ found. (word : List ℕ) (asks : ℕ → Option (List ℕ) → Option (List ℕ) → Asked)
        → asked_in (of_search word asks) (object (members_in members.now)) ≡ option_map (λ it. asks it.object it.name it.class) found) }
{
    let mut held = [Held::Absent; 3];
    if !held_by(members, &SEARCH, &mut held) {
        return Ok(None);
    }
    let [object, name, class] = held;
    let Some(object) = object.number() else {
        return Ok(None);
    };
    let name = name.text(alloc)?;
    let class = class.text(alloc)?;
    Ok(Some(Search {
        object,
        name,
        class,
    }))
}
