//! A setup is fixed for the whole life of an engine.
ghost use Rattle.std.specs.Prelude.{◌≡◌, ◌≤◌, IfOk, length, map, option_map};
ghost use Rattle.stored_slots.specs.declared.limit.TheConstants.{FUNCTORS};
ghost use Rattle.std.specs.Result.{result_err};
ghost use Rattle.class_table.specs.Lookup.{method_text, methods, names, properties};
ghost use Rattle.session_model.specs.Classes.{class_index, class_refusal, named_class_refusal};

use class_table::ClassTable;
use plain_types::{Code, Items, Text};
use std::alloc::{AllocError, Global};
use stored_slots::Functor;

/// A setup is fixed for the whole life of an engine, and the same for all of its sessions.
#[derive(Drop)]
pub struct Setup {
    pub alloc: Global,
    /// The classes that objects may have.
    pub classes: ClassTable,
    /// The functors that signals may be connected to. What answers their calls is not here: it is lent to
    /// who calls them.
    pub functors: Items<Functor>,
    /// How many turns each command has for the calls that it causes.
    pub turns: u32,
    ghost few: { length functors ≤ FUNCTORS },
}

impl Setup {
    /// The index of the class of this name.
    pub fn class_index(&self, name: &Text) -> Result<u32, Code>
        ensures refusal { result_err result ≡ class_refusal self.now.classes name.now }
        ensures index { IfOk result (λ index. index ≡ class_index self.now.classes name.now) }
    {
        match self.classes.find(name.as_str()) {
            Some(index) => Ok(index),
            None => Err(Code::NoSuchClass),
        }
    }

    /// The normal texts of the methods of a class, by number.
    pub fn method_texts(&self, class: u32) -> Result<Items<Text>, AllocError>
        ensures { IfOk result (λ texts. texts ≡ map method_text (methods self.now.classes class)) }
    {
        let mut texts = Items::new(self.alloc);
        for number in 0..self.classes.method_count(class) {
            let Some(method) = self.classes.method_row(class, number) else {
                return Ok(texts);
            };
            texts.push(method.text.copy(self.alloc)?)?;
        }
        Ok(texts)
    }

    /// The names of the properties of a class, by number.
    pub fn property_names(&self, class: u32) -> Result<Items<Text>, AllocError>
        ensures { IfOk result (λ found. found ≡ names (properties self.now.classes class)) }
    {
        let mut found = Items::new(self.alloc);
        for number in 0..self.classes.property_count(class) {
            let Some(property) = self.classes.property_row(class, number) else {
                return Ok(found);
            };
            found.push(property.name.copy(self.alloc)?)?;
        }
        Ok(found)
    }

    /// The index of the class of this name, where one is given.
    pub fn named_index(&self, name: &Option<Text>) -> Result<Option<u32>, Code>
        ensures refusal { result_err result ≡ named_class_refusal self.now.classes name.now }
        ensures index { IfOk result (λ index. index ≡ option_map (class_index self.now.classes) name.now) }
    {
        match name {
            Some(name) => Ok(Some(self.class_index(name)?)),
            None => Ok(None),
        }
    }
}
