//! The functors of the program.
ghost use Rattle.std.specs.Prelude.{◌≡◌, ◌∷◌, [], IfOk, OnOk};
ghost use Rattle.signature_core.specs.declared.kind.Kind.TheVariants.{Int};
ghost use Rattle.stored_slots.specs.Closures.{GivesBody, GivesNext, MayBeCalled};
ghost use Rattle.stored_slots.specs.Table.{functors_of};
ghost use Rattle.term_core.specs.Term as term;
ghost use Rattle.command_line.specs.Clamp.{clamp, clamp_body};
ghost use Rattle.command_line.specs.Count.{count, count_body, one_more};

use crate::clamp::{clamp_body, clamp_next};
use crate::count::{count_body, count_next};
use plain_types::{Fault, Items, Text};
use signature_core::Kind;
use std::alloc::{AllocError, Global};
use stored_slots::{Closure, Functors};

/// The kinds of one parameter, an `int`.
fn one_int(alloc: Global) -> Result<Items<Kind>, AllocError>
    ensures { IfOk result (λ kinds. kinds ≡ Int ∷ []) }
{
    let mut kinds = Items::new(alloc);
    kinds.push(Kind::Int)?;
    Ok(kinds)
}

/// A table with only `clamp`, which runs the closure `run`.
#[tactic(auto, using(crate::proofs::ClampLemmas::clamp_is_body, crate::proofs::ClampLemmas::clamp_is_next))]
pub fn with_clamp(alloc: Global, least: i32, most: i32, run: Closure) -> Result<Functors, Fault>
    requires callable { MayBeCalled (Closure.pre run) (Int ∷ []) }
    requires gives_body { GivesBody (Closure.post run) (Int ∷ []) (clamp_body least most) }
    requires gives_next { GivesNext (Closure.post run) (Int ∷ []) term.state }
    ensures { IfOk result (λ functors. functors_of functors ≡ clamp least most ∷ []) }
{
    let name = Text::from_str(alloc, "clamp")?;
    let params = one_int(alloc)?;
    let body = clamp_body(alloc, least, most)?;
    let mut functors = Functors::new(alloc);
    functors.add(name, params, body, clamp_next(), run)?;
    Ok(functors)
}

/// Adds `count`, which runs the closure `run`, to a table with only `clamp`.
#[tactic(auto, using(crate::proofs::CountLemmas::count_is_body, crate::proofs::CountLemmas::count_is_next))]
pub fn add_count(
    alloc: Global,
    functors: &mut Functors,
    least: i32,
    most: i32,
    run: Closure,
) -> Result<(), Fault>
    requires clamp { functors_of functors.old ≡ clamp least most ∷ [] }
    requires callable { MayBeCalled (Closure.pre run) (Int ∷ []) }
    requires gives_body { GivesBody (Closure.post run) (Int ∷ []) count_body }
    requires gives_next { GivesNext (Closure.post run) (Int ∷ []) (one_more term.state) }
    ensures { OnOk result (functors_of functors.new ≡ clamp least most ∷ count ∷ []) }
{
    let name = Text::from_str(alloc, "count")?;
    let params = one_int(alloc)?;
    let body = count_body(alloc)?;
    let next = count_next(alloc)?;
    functors.add(name, params, body, next, run)
}
