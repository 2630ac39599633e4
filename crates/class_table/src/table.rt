//! The table of classes, and what is looked up in it.
ghost use Rattle.std.specs.Prelude.{◌≡◌, ◌+◌, ◌≤◌, ◌++◌, ◌∷◌, List, [], Some, None, IsTrue, IfSome, IfNone};
ghost use Rattle.std.specs.Prelude.{IfOk, OnOk, IfErr, length, map, slice_get, string_bytes};
ghost use Rattle.std.specs.Option.{option_copied};
ghost use Rattle.class_table.specs.declared.fault.ClassError.TheVariants.{Memory};
ghost use Rattle.class_table.specs.Declaring.{q_object};
ghost use Rattle.class_table.specs.Lookup.{are_distinct_methods, are_distinct_properties, inherits, line, method_number};
ghost use Rattle.class_table.specs.Lookup.{method_text, methods, names, index_of, properties, property_number, signatures};
ghost use Rattle.indexmap.specs.IndexMap.{keys, values};
ghost use Rattle.class_table.specs.Sound.{FitsBehind, IsClassAt, IsMethod, IsTable, is_told};
ghost use Rattle.class_table.specs.Spelled.{IsSpelled};

use crate::base_class::q_object;
use crate::class::{CLASSES, Class, METHODS, Method, PROPERTIES, Property};
use crate::fault::ClassError;
use indexmap::IndexMap;
use signature_core::Signature;
use std::alloc::{AllocError, Global};
use std::marker::Model;

/// `QObject`, whose index is 0, and after it the classes of a class file; the first class of the file
/// has index 1.
pub struct ClassTable {
    alloc: Global,
    classes: IndexMap<String, Class>,
}

impl Drop for ClassTable {
    fn drop(self) {
        let ClassTable {
            alloc: _,
            classes: _,
        } = self;
    }
}

impl Model for ClassTable {
    ghost use Rattle.std.specs.Prelude.{List};
    ghost use Rattle.std.specs.Coded.{coded_list};
    ghost use Rattle.class_table.specs.declared.class.Class.{Class};
    ghost use Rattle.class_table.specs.contracts.class.Class as class;

    ghost Value = { List Class };

    ghost coded = { coded_list class.the_row.coded };

    ghost use Rattle.class_table.specs.Table.{classes_of, IsSound};

    ghost view = { classes_of };

    ghost invariant = { IsSound };
}

impl ClassTable {
    /// The table of `QObject` alone.
    pub(crate) fn new(alloc: Global) -> Result<ClassTable, ClassError>
        ensures ok { IfOk result (λ table. table ≡ q_object ∷ []) }
        ensures err { IfErr result (λ error. error ≡ Memory) }
    {
        let class = q_object(alloc)?;
        let mut classes = IndexMap::new(alloc);
        insert(alloc, &mut classes, class)?;
        Ok(ClassTable { alloc, classes })
    }

    /// How many classes there are, `QObject` among them.
    pub fn len(&self) -> usize
        ensures value { result ≡ length self.now }
        ensures few { result ≤ CLASSES + 1 }
    {
        self.classes.len()
    }

    /// Adds a class after the others.
    pub(crate) fn push(&mut self, class: Class) -> Result<(), ClassError>
        requires room { length self.old ≤ CLASSES }
        requires fits { FitsBehind self.old class }
        ensures ok { OnOk result (self.new ≡ self.old ++ class ∷ []) }
        ensures err { IfErr result (λ error. error ≡ Memory) }
    {
        insert(self.alloc, &mut self.classes, class)?;
        Ok(())
    }

    /// The index of the class of this name.
    pub fn find(&self, name: &str) -> Option<u32>
        ensures { result ≡ index_of name.now self.now }
    {
        let index = self.classes.get_index_of(name)?;
        Some(index as u32)
    }

    /// The class at this index.
    pub fn class_row(&self, class: u32) -> Option<&Class>
        ensures value { option_copied result ≡ slice_get self.now class }
        ensures table { IsTable self.now }
        ensures has { IfSome result (λ row. IsClassAt self.now class row.now) }
        ensures no_methods { IfNone result (methods self.now class ≡ []) }
        ensures no_properties { IfNone result (properties self.now class ≡ []) }
        ensures no_line { IfNone result (line self.now class ≡ []) }
    {
        let (_, row) = self.classes.get_index(class as usize)?;
        Some(row)
    }

    /// How many methods the class has, those of its superclasses among them; a class that is not there has
    /// none.
    pub fn method_count(&self, class: u32) -> u32
        ensures value { result ≡ length (methods self.now class) }
        ensures few { result ≤ METHODS }
        ensures once { IsTrue (are_distinct_methods (signatures (methods self.now class))) }
    {
        match self.class_row(class) {
            Some(row) => row.method_offset + row.methods.len() as u32,
            None => 0,
        }
    }

    /// How many properties the class has, those of its superclasses among them; a class that is not
    /// there has none.
    pub fn property_count(&self, class: u32) -> u32
        ensures value { result ≡ length (properties self.now class) }
        ensures few { result ≤ PROPERTIES }
        ensures once { IsTrue (are_distinct_properties (names (properties self.now class))) }
    {
        match self.class_row(class) {
            Some(row) => row.property_offset + row.properties.len() as u32,
            None => 0,
        }
    }

    /// The texts of the methods' signatures, by number.
    pub fn methods(&self, class: u32) -> Result<Vec<String>, AllocError>
        ensures { IfOk result (λ texts. map (λ text. string_bytes text) texts.items
            ≡ map method_text (methods self.now class)) }
    {
        let alloc = self.alloc;
        let mut texts = Vec::new(alloc);
        for number in 0..self.method_count(class) {
            let Some(method) = self.method_row(class, number) else {
                return Ok(texts);
            };
            texts.push(String::from_str(alloc, method.text.as_str())?)?;
        }
        Ok(texts)
    }

    /// The names of the properties, by number.
    pub fn properties(&self, class: u32) -> Result<Vec<String>, AllocError>
        ensures { IfOk result (λ texts. map (λ text. string_bytes text) texts.items
            ≡ names (properties self.now class)) }
    {
        let alloc = self.alloc;
        let mut texts = Vec::new(alloc);
        for number in 0..self.property_count(class) {
            let Some(property) = self.property_row(class, number) else {
                return Ok(texts);
            };
            texts.push(String::from_str(alloc, property.name.as_str())?)?;
        }
        Ok(texts)
    }

    /// The number of the method with this signature, of the class itself or a superclass.
    pub fn method(&self, class: u32, signature: &Signature) -> Option<u32>
        ensures { result ≡ method_number signature.now (methods self.now class) }
    {
        let mut next = Some(class);
        while let Some(index) = next {
            let row = self.class_row(index)?;
            if let Some(number) = row.own_method(signature) {
                return Some(number);
            }
            next = row.superclass;
        }
        None
    }

    /// The number of the method, of the class itself or a superclass, whose normal text this is. Another
    /// text that spells the method's signature is not found here.
    pub fn method_of_text(&self, class: u32, text: &str) -> Option<u32>
        ensures { IfSome result (IsSpelled text.now (methods self.now class)) }
    {
        let mut next = Some(class);
        while let Some(index) = next {
            let row = self.class_row(index)?;
            if let Some(number) = row.own_method_of_text(text) {
                return Some(number);
            }
            next = row.superclass;
        }
        None
    }

    /// The number of the property of this name, of the class itself or a superclass.
    pub fn property(&self, class: u32, name: &str) -> Option<u32>
        ensures { result ≡ property_number name.now (properties self.now class) }
    {
        let mut found = None;
        let mut next = Some(class);
        while let Some(index) = next {
            let Some(row) = self.class_row(index) else {
                return found;
            };
            found = row.own_property(name).or(found);
            next = row.superclass;
        }
        found
    }

    /// Whether the class is the other one or below it.
    pub fn inherits(&self, class: u32, base: u32) -> bool
        ensures { result ≡ inherits self.now class base }
    {
        let mut next = Some(class);
        while let Some(index) = next {
            let Some(row) = self.class_row(index) else {
                return false;
            };
            if index == base {
                return true;
            }
            next = row.superclass;
        }
        false
    }

    /// The method of this number.
    pub fn method_row(&self, class: u32, number: u32) -> Option<&Method>
        ensures value { option_copied result ≡ slice_get (methods self.now class) number }
        ensures sound { IfSome result (λ method. IsMethod method.now) }
    {
        let mut next = Some(class);
        while let Some(index) = next {
            let row = self.class_row(index)?;
            if row.method_offset <= number {
                return row.methods.get((number - row.method_offset) as usize);
            }
            next = row.superclass;
        }
        None
    }

    /// The property of this number.
    pub fn property_row(&self, class: u32, number: u32) -> Option<&Property>
        ensures value { option_copied result ≡ slice_get (properties self.now class) number }
        ensures told { IfSome result (λ property. IsTrue (is_told (methods self.now class) property.now)) }
    {
        let mut next = Some(class);
        while let Some(index) = next {
            let row = self.class_row(index)?;
            if row.property_offset <= number {
                return row.properties.get((number - row.property_offset) as usize);
            }
            next = row.superclass;
        }
        None
    }
}

/// Adds a class after the others, with its name as the key.
fn insert(
    alloc: Global,
    classes: &mut IndexMap<String, Class>,
    class: Class,
) -> Result<(), AllocError>
    requires by_name { map (λ key. string_bytes key) (keys classes.old) ≡ map (λ class. class.name) (values classes.old) }
    requires is_new { index_of class.name (values classes.old) ≡ None }
    ensures kept { IfErr result (λ _. classes.new.entries ≡ classes.old.entries) }
    ensures by_name { OnOk result (map (λ key. string_bytes key) (keys classes.new) ≡ map (λ class. class.name) (values classes.new)) }
    ensures values { OnOk result (values classes.new ≡ values classes.old ++ class ∷ []) }
{
    let name = String::from_str(alloc, class.name.as_str())?;
    classes.insert(name, class)?;
    Ok(())
}
