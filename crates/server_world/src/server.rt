//! Sessions that come with their first command, and runs of their commands.
ghost use Rattle.std.specs.Prelude.{◌≡◌, ◌⊎◌, ◌<◌, ◌++◌, ◌∷◌, [], All, List, ℕ, Some, length, map, IsTrue, IsFalse, IfOk, OnOk, OnErr};
ghost use Rattle.std.specs.Result.{result_ok};
ghost use Rattle.isolation.specs.Slice.{Note, back};
ghost use Rattle.session_model.specs.Asked.{asked, tag};
ghost use Rattle.session_model.specs.Machine.{machine};
ghost use Rattle.session_model.specs.State.{empty};
ghost use Rattle.stored_slots.specs.Table.{functors_of};
ghost use Rattle.session_engine.specs.Core as engine;
ghost use Rattle.session_engine.specs.Core.{place};
ghost use Rattle.session_engine.specs.Engine.{seen_engine};
ghost use Rattle.session_engine.specs.Items.{BeginsAnew};
ghost use Rattle.session_engine.specs.Sessions.{AreSound, AreWell, IsStep};
ghost use Rattle.server_world.specs.Names.{with_name};
ghost use Rattle.server_world.specs.Server.{IsLost, IsNew, KnowsAtMost, OnlyRefused, StaysOut, failed, names};
ghost use Rattle.server_world.specs.Server.{seen_by_name, seen_as, settings, states, was_refused};
ghost use Rattle.server_world.specs.Spared.{SparesItsSession};
ghost use Rattle.server_world.specs.Runs.{AreSteps, IsBlamed, IsEntry, IsIsolated, IsLater, IsWorldRun, tags};
ghost use Rattle.server_world.specs.Noting.{IsNoted, IsWithin, StopsShort, marked_from, name_at, named};
ghost use Rattle.server_world.specs.NotedRuns.{AnswersPlaces, IsKeptRun, Stops};

use crate::notes::Notes;
use crate::report::{Entry, Report};
use class_table::ClassTable;
use plain_types::{Items, Text};
use session_engine::Engine;
use session_model::{Line, Tagged};
use std::alloc::{AllocError, Global};
use std::hash::RandomState;
use stored_slots::Functors;

/// A server of sessions, each with a name. A session is there from its first command on.
pub struct Server {
    alloc: Global,
    engine: Engine,
    /// Memory was wanted outside the engine and not found.
    memory_refused: bool,
}

impl Drop for Server {
    fn drop(self) {
        let Server {
            alloc: _,
            engine: _,
            memory_refused: _,
        } = self;
    }
}

impl Server {
    /// A server with no session. Its objects may have the classes of the table, and its signals may be connected to
    /// the functors. Each command has `turns` turns for the calls that it causes. The names of sessions are hashed
    /// with the keys of `hashing`: whoever does not know them cannot choose names for which a look-up takes long.
    #[tactic(auto, unfolding(crate::specs::Server::was_refused))]
    pub fn new(
        alloc: Global,
        classes: ClassTable,
        functors: Functors,
        turns: u32,
        hashing: RandomState,
    ) -> Result<Server, AllocError>
        ensures states { IfOk result (λ server. (name : List ℕ) → states (seen_as server) name ≡ empty) }
        ensures failed { IfOk result (λ server. (name : List ℕ) → IsFalse (failed (seen_as server) name)) }
        ensures settings { IfOk result (λ server. settings (seen_as server) ≡ record { turns = turns; classes = classes; functors = functors_of functors }) }
        ensures new { IfOk result (λ server. IsNew (seen_as server)) }
    {
        let rows = functors.rows()?;
        Ok(Server {
            alloc,
            engine: Engine::new(alloc, classes, functors, rows, turns, hashing)?,
            memory_refused: false,
        })
    }

    /// Does one command. A refusal is answered with one line. If memory runs out, the command's session has failed,
    /// or is not opened if this was its first command.
    pub fn step(&mut self, given: &Tagged) -> Result<Items<Line>, AllocError>
        ensures step { IsStep (seen_by_name (seen_as self.old))
            (seen_by_name (seen_as self.new)) given.now.session (asked given.now.command) (result_ok result) }
        ensures known { KnowsAtMost (seen_as self.old) (seen_as self.new) given.now.session }
        ensures there { OnOk result (names (seen_as self.new) ≡ with_name (names (seen_as self.old)) given.now.session) }
        ensures lost { OnErr result (IsLost (seen_as self.old) (seen_as self.new) given.now.session) }
    {
        let place = enter(&mut self.engine, &given.session)?;
        self.engine.told(place, &given.command)
    }

    /// Does commands of any sessions, in their order, and reports for each the lines that its session receives.
    ///
    /// Room for the whole report is made first; without it no command is done.
    pub fn run(&mut self, list: &[Tagged]) -> Report
        ensures refused { result.memory_refused ≡ was_refused (seen_as self.new) }
        // Whatever was refused before, each command is a step, from where the one before has left all sessions.
        ensures steps { AreSteps (seen_as self.old) (tags list.now) result.lines (seen_as self.new)
            ⊎ ((result.lines ≡ []) × OnlyRefused (seen_as self.old) (seen_as self.new)) }
        // Where memory was found, the lines and the states are those of all sessions side by side,
        ensures world { IsFalse result.memory_refused → IsWorldRun (seen_as self.old) (seen_as self.new) (tags list.now) result.lines }
        // so each session receives the lines that it would receive alone.
        ensures isolated { IsFalse result.memory_refused → (s : List ℕ) → IsIsolated (seen_as self.old) (seen_as self.new) (tags list.now) result.lines s }
        // Whatever memory was refused, in this run or before it, so is each session that was spared it, with all that it listens to.
        ensures spared { (s : List ℕ) → SparesItsSession (seen_as self.old) (seen_as self.new) (tags list.now) result.lines s }
        ensures size { (length result.lines ≡ length list.now)
            ⊎ ((result.lines ≡ []) × OnlyRefused (seen_as self.old) (seen_as self.new)) }
        ensures blame { IsFalse (was_refused (seen_as self.old)) → IsTrue result.memory_refused
            → IsBlamed (seen_as self.old) (seen_as self.new) (tags list.now) result.lines }
        ensures later { IsLater (seen_as self.old) (seen_as self.new) }
    {
        let Ok(mut entries) = Vec::with_capacity(self.alloc, list.len()) else {
            self.note_memory_refused();
            self.engine.law_sound();
            return Report {
                lines: Items::new(self.alloc),
                memory_refused: true,
            };
        };
        for given in list {
            entries.push_reserved(self.entry(given));
        }
        self.engine.law_sound();
        Report {
            lines: Items::from_vec(entries),
            memory_refused: self.memory_refused(),
        }
    }

    /// Notes the session of a command that is about to be done, and the sessions with a join that names it. If
    /// memory runs out, nothing has changed.
    pub fn note(&self, given: &Tagged, notes: &mut Notes) -> Result<(), AllocError>
        ensures ok { OnOk result ((note : Note ℕ) × IsNoted (seen_as self.now) (tag given.now) note × (notes.new ≡ notes.old ++ note ∷ [])) }
        ensures err { OnErr result (notes.new ≡ notes.old) }
    {
        let place = self.place_for(&given.session);
        let joiners = self.engine.joiners(&given.session)?;
        notes.add(place, joiners)
    }

    /// The place of a session, or the place that its first command will open: the one after all others.
    fn place_for(&self, name: &Text) -> usize
        ensures there { result < length (with_name (names (seen_as self.now)) name.now) }
        ensures is { name_at (with_name (names (seen_as self.now)) name.now) result ≡ name.now }
    {
        match self.engine.find(name) {
            Some(place) => place,
            None => self.engine.len(),
        }
    }

    /// Which of the noted commands the slice of a session keeps: their places from 0 on, rising.
    pub fn kept(&self, session: &Text, notes: &Notes) -> Result<Vec<usize>, AllocError>
        requires { All (IsWithin (length (names (seen_as self.now)))) notes.now }
        ensures { IfOk result (λ places. places.items
            ≡ marked_from 0 (back (machine (settings (seen_as self.now))) session.now (map (named (names (seen_as self.now))) notes.now)).marks) }
    {
        match self.engine.find(session) {
            Some(place) => notes.kept(place, self.engine.len()),
            // A session without a command joins nobody.
            None => Ok(Vec::new(self.alloc)),
        }
    }

    /// Does commands as `run`, and returns also which of them the slice of a session keeps: their places in the
    /// list from 0 on, rising. A run of these alone gives the session the same lines. If memory was refused, no
    /// places are returned.
    ///
    /// If there is no memory for the report or the notes, the remaining commands are not done.
    pub fn run_kept(
        &mut self,
        list: &[Tagged],
        session: &Text,
    ) -> Result<(Report, Vec<usize>), AllocError>
        ensures refused { IfOk result (λ told. told.0.memory_refused ≡ was_refused (seen_as self.new)) }
        ensures steps { IfOk result (λ told. AreSteps (seen_as self.old) (tags list.now) told.0.lines (seen_as self.new)) }
        ensures world { IfOk result (λ told. IsFalse told.0.memory_refused → IsWorldRun (seen_as self.old) (seen_as self.new) (tags list.now) told.0.lines) }
        ensures isolated { IfOk result (λ told. IsFalse told.0.memory_refused
            → (s : List ℕ) → IsIsolated (seen_as self.old) (seen_as self.new) (tags list.now) told.0.lines s) }
        ensures spared { IfOk result (λ told. (s : List ℕ) → SparesItsSession (seen_as self.old) (seen_as self.new) (tags list.now) told.0.lines s) }
        ensures kept { IfOk result (λ told. AnswersPlaces (seen_as self.old) (tags list.now) session.now told.0.memory_refused told.1.items) }
        ensures stopped { OnErr result (StopsShort (seen_as self.old) (seen_as self.new) (tags list.now)) }
        ensures later { IsLater (seen_as self.old) (seen_as self.new) }
    {
        match self.run_noted(list, session) {
            Ok(told) => {
                self.engine.law_sound();
                Ok(told)
            }
            Err(AllocError) => {
                self.note_memory_refused();
                self.engine.law_sound();
                Err(AllocError)
            }
        }
    }

    /// Runs the commands as `run_kept` does, but does not note that memory was refused for the report or for
    /// the notes.
    fn run_noted(
        &mut self,
        list: &[Tagged],
        session: &Text,
    ) -> Result<(Report, Vec<usize>), AllocError>
        ensures told { IfOk result (λ told. IsKeptRun (seen_as self.old) (seen_as self.new) (tags list.now) session.now told.0 told.1.items) }
        ensures stopped { OnErr result (Stops (seen_as self.old) (seen_as self.new) (tags list.now)) }
    {
        let mut entries = Vec::with_capacity(self.alloc, list.len())?;
        let mut notes = Notes::new(self.alloc);
        for given in list {
            self.note(given, &mut notes)?;
            let entry = self.entry(given);
            entries.push_reserved(entry);
        }
        let lines = Items::from_vec(entries);
        if self.memory_refused() {
            let report = Report {
                lines,
                memory_refused: true,
            };
            return Ok((report, Vec::new(self.alloc)));
        }
        let places = self.kept(session, &notes)?;
        let report = Report {
            lines,
            memory_refused: false,
        };
        Ok((report, places))
    }

    fn entry(&mut self, given: &Tagged) -> Entry
        ensures { IsEntry (seen_as self.old) (seen_as self.new) (tag given.now) result }
    {
        match self.step(given) {
            Ok(lines) => Entry::Lines(lines),
            Err(AllocError) => Entry::OutOfMemory,
        }
    }

    /// Puts a session back to where it was before its first command, also one that has failed. What others
    /// have joined stays, and so do their joins of what it publishes. A session that is not there is where it
    /// would be put.
    #[tactic(auto, unfolding(crate::specs::Server::was_refused))]
    pub fn reset(&mut self, session: &Text)
        ensures anew { BeginsAnew (seen_by_name (seen_as self.old)) (seen_by_name (seen_as self.new)) session.now }
        ensures names { names (seen_as self.new) ≡ names (seen_as self.old) }
    {
        self.engine.law_sound();
        if let Some(place) = self.engine.find(session) {
            self.engine.reset(place);
        }
    }

    /// Every session is sound. There is nothing to run: the clause is for the proofs of callers.
    pub fn law_sound(&self)
        ensures { AreSound (seen_by_name (seen_as self.now)) }
    {
        self.engine.law_sound();
    }

    /// Whether memory has run out in any call of this server so far, or this was noted.
    #[tactic(auto, unfolding(crate::specs::Server::was_refused))]
    pub fn memory_refused(&self) -> bool
        ensures { result ≡ was_refused (seen_as self.now) }
    {
        self.engine.memory_refused() || self.memory_refused
    }

    /// Notes that a caller of the server wanted memory and did not find it. Whoever reads commands
    /// and writes lines notes it here, so that `memory_refused` speaks of the whole program.
    #[tactic(auto, unfolding(crate::specs::Server::was_refused))]
    pub fn note_memory_refused(&mut self)
        ensures refused { OnlyRefused (seen_as self.old) (seen_as self.new) }
        ensures settings { settings (seen_as self.new) ≡ settings (seen_as self.old) }
    {
        self.memory_refused = true;
    }
}

/// The place of a session, which is opened where it is not there.
fn enter(sessions: &mut Engine, name: &Text) -> Result<usize, AllocError>
    ensures place { IfOk result (λ at. place (seen_engine sessions.new) name.now ≡ Some at) }
    ensures there { OnOk result (engine.names (seen_engine sessions.new) ≡ with_name (engine.names (seen_engine sessions.old)) name.now) }
    ensures seen { OnOk result (engine.seen_by_name (seen_engine sessions.new) ≡ engine.seen_by_name (seen_engine sessions.old)) }
    ensures out { OnErr result (StaysOut (seen_engine sessions.old) (seen_engine sessions.new) name.now) }
    ensures well { AreWell (engine.seen_by_name (seen_engine sessions.old)) }
    ensures sound { AreSound (engine.seen_by_name (seen_engine sessions.old)) }
{
    sessions.law_sound();
    match sessions.find(name) {
        Some(place) => Ok(place),
        None => sessions.open(name),
    }
}
