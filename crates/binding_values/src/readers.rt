//! Which bound properties have read a property.
ghost use Rattle.std.specs.Prelude.{◌≡◌, ◌+◌, [], All, Contains, IfNone, IfSome, OnErr, OnOk, false, length, true};
ghost use Rattle.std.specs.List.{AllWithin};
ghost use Rattle.shared_rows.specs.Links.{with_link, without_link};
ghost use Rattle.binding_values.specs.Readers.{AreAmong, AreFewer, IsEdgeAt, IsStart, edge_cmp, edge_of, is_ahead, leads_from};

use property_store::Property;
use shared_rows::Links;
use std::alloc::{AllocError, Global};
use std::marker::Model;

/// A property that was read, and the bound one that has read it.
#[derive(Clone, Copy, PartialEq, Eq, PartialOrd, Ord)]
pub(crate) struct Edge {
    pub(crate) read_object: u32,
    pub(crate) read_number: usize,
    pub(crate) reader_object: u32,
    pub(crate) reader_number: usize,
}

fn edge_of(read: Property, reader: Property) -> Edge
    ensures { result ≡ edge_of read reader }
{
    Edge {
        read_object: read.object,
        read_number: read.number,
        reader_object: reader.object,
        reader_number: reader.number,
    }
}

/// Whether an edge leads from a property that comes before `read`.
fn is_ahead(read: Property, edge: Edge) -> bool
    ensures { result ≡ is_ahead read edge }
{
    edge.read_object < read.object
        || (edge.read_object == read.object && edge.read_number < read.number)
}

/// Whether the edges before a position lead from properties before `read`, and the others do not.
fn is_start(edges: &Links<Edge>, read: Property, at: usize) -> bool
    ensures { result ≡ true → IsStart edges.now.links read at }
{
    let all = edges.as_buffer();
    let len = all.len();
    if at > len {
        return false;
    }
    if at > 0 && !is_ahead(read, all.get(at - 1)) {
        return false;
    }
    at == len || !is_ahead(read, all.get(at))
}

/// Edges from properties to those that have read them. The edges from one property are adjacent.
#[derive(Drop)]
pub(crate) struct Readers {
    edges: Links<Edge>,
}

impl Model for Readers {
    ghost use Rattle.std.specs.Prelude.{List};
    ghost use Rattle.binding_values.specs.declared.readers.Edge.{Edge};

    ghost Value = { List Edge };

    ghost view = { λ readers. readers.edges.links };
}

impl Readers {
    pub(crate) fn new(alloc: Global) -> Readers
        ensures { result ≡ [] }
    {
        Readers {
            edges: Links::new(alloc),
        }
    }

    /// The position at which the edges from `read`, and then those from later properties, begin. The position
    /// `near` is tried first.
    pub(crate) fn start_of(&self, read: Property, near: usize) -> usize
        ensures { IsStart self.now read result }
    {
        if is_start(&self.edges, read, near) {
            return near;
        }
        let all = self.edges.as_buffer();
        all.partition_point(|edge| is_ahead(read, *edge))
    }

    /// The property that the edge at a position leads to, where it leads from this one, and the next position.
    pub(crate) fn reader_at(&self, read: Property, at: usize) -> Option<(Property, usize)>
        requires { AllWithin (λ edge. is_ahead read edge ≡ false) self.now at (length self.now) }
        ensures found { IfSome result (λ found. IsEdgeAt self.now at (edge_of read found.0) × (found.1 ≡ at + 1)) }
        ensures none { IfNone result (AllWithin (λ edge. leads_from read edge ≡ false) self.now at (length self.now)) }
    {
        let all = self.edges.as_buffer();
        if at >= all.len() {
            return None;
        }
        let edge = all.get(at);
        if edge.read_object != read.object || edge.read_number != read.number {
            return None;
        }
        let reader = Property {
            object: edge.reader_object,
            number: edge.reader_number,
        };
        Some((reader, at + 1))
    }

    pub(crate) fn add(&mut self, read: Property, reader: Property) -> Result<(), AllocError>
        ensures ok { OnOk result (self.new ≡ with_link edge_cmp self.old (edge_of read reader)) }
        ensures err { OnErr result (self.new ≡ self.old) }
    {
        self.edges.insert(edge_of(read, reader))
    }

    pub(crate) fn remove(&mut self, read: Property, reader: Property)
        ensures { self.new ≡ without_link edge_cmp self.old (edge_of read reader) }
    {
        self.edges.remove(edge_of(read, reader));
    }

    /// The property has read these.
    pub(crate) fn add_all(&mut self, reads: &[Property], reader: Property) -> Result<(), AllocError>
        ensures added { OnOk result (All (λ read. Contains self.new (edge_of read reader)) reads.now) }
        ensures more { AreAmong self.old self.new }
    {
        for read in reads {
            self.add(*read, reader)?;
        }
        Ok(())
    }

    /// Removes a reader from each of the properties that it has read.
    pub(crate) fn remove_all(&mut self, reads: &[Property], reader: Property)
        ensures { AreFewer reader self.old self.new }
    {
        for read in reads {
            self.remove(*read, reader);
        }
    }

    /// No property has read any.
    pub(crate) fn clear(&mut self)
        ensures { self.new ≡ [] }
    {
        self.edges.clear();
    }
}
