//! The properties that an expression reads.
ghost use Rattle.std.specs.Prelude.{◌≡◌, ◌++◌, IfOk};
ghost use Rattle.term_evaluation.specs.Reading.{reads_of};

use plain_types::{Items, Text};
use std::alloc::{AllocError, Global};
use term_core::{Expr, Node, Target};

/// A property that an expression reads.
pub struct Read {
    pub target: Target,
    pub name: Text,
}

impl Drop for Read {
    fn drop(self) {
        let Read { target: _, name: _ } = self;
    }
}

/// The properties that the expression reads, in preorder, each as often as it is written. Evaluation
/// may read fewer, since it takes one branch of each choice and ends at the first fault.
pub fn reads_of(alloc: Global, expr: &Expr) -> Result<Items<Read>, AllocError>
    ensures { IfOk result (λ reads. reads ≡ reads_of expr.now) }
{
    let mut found = Vec::new(alloc);
    gather(alloc, expr, &mut found)?;
    Ok(Items::from_vec(found))
}

/// Appends the properties that the expression reads to those found before.
fn gather(alloc: Global, expr: &Expr, found: &mut Vec<Read>) -> Result<(), AllocError>
    ensures { IfOk result (λ _. found.new.items ≡ found.old.items ++ reads_of expr.now) }
{
    match &expr.node {
        Node::Const(_) | Node::Arg(_) | Node::State => Ok(()),
        Node::Prop(target, name) => {
            found.push(Read {
                target: target.copy(alloc)?,
                name: name.copy(alloc)?,
            })?;
            Ok(())
        }
        Node::Binary(_, a, b) => {
            gather(alloc, a, found)?;
            gather(alloc, b, found)
        }
        Node::Choice(test, held, failed) => {
            gather(alloc, test, found)?;
            gather(alloc, held, found)?;
            gather(alloc, failed, found)
        }
    }
}
