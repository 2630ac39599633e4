//! A server without what answers the calls of its functors.
ghost use Rattle.std.specs.Prelude.{◌≡◌, List, ℕ, Some, IsFalse, IfOk, OnOk, OnErr};
ghost use Rattle.std.specs.Result.{result_ok};
ghost use Rattle.session_model.specs.Asked.{asked};
ghost use Rattle.session_model.specs.State.{empty};
ghost use Rattle.stored_slots.specs.Table.{functors_of};
ghost use Rattle.session_engine.specs.Core as engine;
ghost use Rattle.session_engine.specs.Core.{place};
ghost use Rattle.session_engine.specs.Sessions.{AreSound, AreWell, IsStep};
ghost use Rattle.server_world.specs.Names.{with_name};
ghost use Rattle.server_world.specs.Bare.{seen_bare};
ghost use Rattle.server_world.specs.Server.{IsLost, IsNew, KnowsAtMost, OnlyRefused, StaysOut, failed, names};
ghost use Rattle.server_world.specs.Server.{seen_by_name, settings, states};

use class_table::ClassTable;
use dispatch::FunctorTable;
use plain_types::{Items, Text};
use session_engine::Core;
use session_model::{Line, Tagged};
use std::alloc::{AllocError, Global};
use std::hash::RandomState;
use stored_slots::Functors;

/// A server that holds no closures: what answers the calls of its functors comes with each command. So a program
/// that cannot keep closures between two calls, as a library for C, may own one.
#[derive(Drop)]
pub struct BareServer {
    core: Core,
    /// Memory was wanted outside the core and not found.
    memory_refused: bool,
}

impl BareServer {
    /// A server with no session, as [`crate::Server::new`] has it. The functors are as these, whose closures are
    /// not kept.
    #[tactic(auto, unfolding(crate::specs::Server::was_refused))]
    pub fn new(
        alloc: Global,
        classes: ClassTable,
        functors: &Functors,
        turns: u32,
        hashing: RandomState,
    ) -> Result<BareServer, AllocError>
        ensures states { IfOk result (λ server. (name : List ℕ) → states (seen_bare server) name ≡ empty) }
        ensures failed { IfOk result (λ server. (name : List ℕ) → IsFalse (failed (seen_bare server) name)) }
        ensures settings { IfOk result (λ server.
            settings (seen_bare server) ≡ record { turns = turns; classes = classes; functors = functors_of functors.now }) }
        ensures new { IfOk result (λ server. IsNew (seen_bare server)) }
    {
        let rows = functors.rows()?;
        Ok(BareServer {
            core: Core::new(alloc, classes, rows, turns, hashing)?,
            memory_refused: false,
        })
    }

    /// Does one command, as [`crate::Server::step`] does.
    pub fn step<F: FunctorTable>(
        &mut self,
        answering: &F,
        given: &Tagged,
    ) -> Result<Items<Line>, AllocError>
        requires { F.functors answering.now ≡ (settings (seen_bare self.old)).functors }
        ensures step { IsStep (seen_by_name (seen_bare self.old))
            (seen_by_name (seen_bare self.new)) given.now.session (asked given.now.command) (result_ok result) }
        ensures known { KnowsAtMost (seen_bare self.old) (seen_bare self.new) given.now.session }
        ensures there { OnOk result (names (seen_bare self.new) ≡ with_name (names (seen_bare self.old)) given.now.session) }
        ensures lost { OnErr result (IsLost (seen_bare self.old) (seen_bare self.new) given.now.session) }
        ensures settings { settings (seen_bare self.new) ≡ settings (seen_bare self.old) }
    {
        let place = enter(&mut self.core, &given.session)?;
        self.core.told(answering, place, &given.command)
    }

    /// Notes that a caller of the server wanted memory and did not find it, as
    /// [`crate::Server::note_memory_refused`] does.
    #[tactic(auto, unfolding(crate::specs::Server::was_refused))]
    pub fn note_memory_refused(&mut self)
        ensures refused { OnlyRefused (seen_bare self.old) (seen_bare self.new) }
        ensures settings { settings (seen_bare self.new) ≡ settings (seen_bare self.old) }
    {
        self.memory_refused = true;
    }
}

/// The place of a session, which is opened where it is not there.
fn enter(core: &mut Core, name: &Text) -> Result<usize, AllocError>
    ensures place { IfOk result (λ at. place core.new name.now ≡ Some at) }
    ensures there { OnOk result (engine.names core.new ≡ with_name (engine.names core.old) name.now) }
    ensures seen { OnOk result (engine.seen_by_name core.new ≡ engine.seen_by_name core.old) }
    ensures out { OnErr result (StaysOut core.old core.new name.now) }
    ensures settings { engine.settings core.new ≡ engine.settings core.old }
    ensures well { AreWell (engine.seen_by_name core.old) }
    ensures sound { AreSound (engine.seen_by_name core.old) }
{
    core.law_sound();
    match core.find(name) {
        Some(place) => Ok(place),
        None => core.open(name),
    }
}
