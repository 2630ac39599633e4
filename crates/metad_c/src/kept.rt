//! A handle owns one of these.
ghost use Rattle.std.proofs.Props.{props};
ghost use Rattle.std.specs.Coded.{codes};
ghost use Rattle.std.specs.Prelude.{◌≡◌};
ghost use Rattle.stored_slots.specs.contracts.functor.Functor as functor;
ghost use Rattle.server_world.specs.Bare.{seen_bare};
ghost use Rattle.server_world.specs.Server.{settings};
ghost use Rattle.metad_c.specs.Functors.{program_functors};

use crate::fixed_functors::FixedFunctors;
use crate::output::Output;
use json::Scratch;
use server_world::BareServer;

/// A server, with its output.
#[derive(Drop)]
pub struct Kept {
    pub(crate) server: BareServer,
    pub(crate) functors: FixedFunctors,
    pub(crate) output: Output,
    /// Memory for reading a line, reused for all lines.
    pub(crate) scratch: Scratch,
    ghost same: { (settings (seen_bare server)).functors ≡ program_functors } by { Prim.hlevel (props, codes, functor.the_row.coded) },
}
