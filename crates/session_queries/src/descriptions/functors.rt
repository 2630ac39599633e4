//! The descriptions of functors.
ghost use Rattle.std.specs.Prelude.{◌≡◌, IfOk, map};
ghost use Rattle.session_model.specs.FunctorDescriptions.{is_state, functor_description};

use plain_types::Items;
use session_effects::Setup;
use session_model::FunctorDescription;
use signature_core::Kind;
use std::alloc::{AllocError, Global};
use stored_slots::Functor;
use term_core::{Expr, Node};

/// All functors, in the order of the server's list.
pub(crate) fn functor_descriptions(setup: &Setup) -> Result<Items<FunctorDescription>, AllocError>
    ensures { IfOk result (λ described. described ≡ map functor_description setup.now.functors) }
{
    let mut described = Items::new(setup.alloc);
    'functors: for functor in setup.functors.as_slice() {
        described.push(functor_description(setup.alloc, functor)?)?;
    }
    Ok(described)
}

fn functor_description(alloc: Global, functor: &Functor) -> Result<FunctorDescription, AllocError>
    ensures { IfOk result (λ described. described ≡ functor_description functor.now) }
{
    Ok(FunctorDescription {
        keeps_state: !is_state(&functor.next),
        kinds: copied_kinds(alloc, functor.params.as_slice())?,
        name: functor.name.copy(alloc)?,
    })
}

/// Whether an expression is the state itself.
fn is_state(expr: &Expr) -> bool
    ensures { result ≡ is_state expr.now }
{
    matches!(expr.node, Node::State)
}

/// Copies of some kinds.
pub(crate) fn copied_kinds(alloc: Global, kinds: &[Kind]) -> Result<Items<Kind>, AllocError>
    ensures { IfOk result (λ copies. copies ≡ kinds.now) }
{
    Ok(Items::from_vec(Vec::from_slice(alloc, kinds)?))
}
