//! The engine: the sessions of a server, and what a command of one of them does to all.
ghost use Rattle.std.proofs.Props.{props};
ghost use Rattle.std.specs.Coded.{codes};
ghost use Rattle.std.specs.Prelude.{◌≡◌};
ghost use Rattle.stored_slots.specs.contracts.functor.Functor as functor;
ghost use Rattle.stored_slots.specs.Table.{functors_of};
ghost use Rattle.session_engine.specs.Core.{settings};

use crate::commands::{append, obey, one_line};
use crate::item::Item;
use class_table::ClassTable;
use dispatch::FunctorTable;
use indexmap::IndexSet;
use plain_types::{Fault, Items, Text};
use session_effects::{SessionContext, Setup, layouts};
use session_model::{Command, Line, Post};
use session_tables::Tables;
use std::alloc::{AllocError, Global};
use std::hash::RandomState;
use std::marker::Model;
use stored_slots::{Functor, Functors};

/// An engine without the closures that answer the calls of its functors: a type that holds closures has no view of
/// its own. A program without closures can own a core, and passes what answers functor calls to each command.
#[derive(Drop)]
pub struct Core {
    setup: Setup,
    names: IndexSet<Text, RandomState>,
    tables: Tables,
    memory_refused: bool,
}

impl Model for Core {
    ghost use Rattle.std.specs.Coded.{codes};
    ghost use Rattle.class_table.specs.contracts.class.Class as class;
    ghost use Rattle.stored_slots.specs.contracts.functor.Functor as functor;
    ghost use Rattle.session_tables.specs.contracts.tables.Tables as held;
    ghost use Rattle.session_engine.specs.Core.{EngineState, IsWhole, engine_state};

    ghost Value = { EngineState };

    ghost coded = { Prim.hlevel (codes, class.the_row.coded, functor.the_row.coded, held.the_row.coded) };

    ghost view = { λ e. engine_state e.setup e.names.keys e.tables e.memory_refused };

    ghost invariant = { λ e. IsWhole (engine_state e.setup e.names.keys e.tables e.memory_refused) };
}

impl Core {
    ghost use Rattle.std.specs.Prelude.{◌≤◌, length, All, List, ℕ, ◌++◌, ◌∷◌, [], Some, None, IsTrue, IsFalse, IfOk, OnOk, OnErr};
    ghost use Rattle.std.specs.Result.{result_ok};
    ghost use Rattle.stored_slots.specs.declared.limit.TheConstants.{FUNCTORS};
    ghost use Rattle.stored_slots.specs.Functors.{IsFunctor};
    ghost use Rattle.session_model.specs.Asked.{asked};
    ghost use Rattle.session_tables.specs.Session.{fresh, failed_session};
    ghost use Rattle.session_engine.specs.Returning.{IsAnswered, answer_lines};
    ghost use Rattle.session_engine.specs.Sessions.{AreSound, AreWell, Fails, IsStep};
    ghost use Rattle.session_engine.specs.Core.{IsPlace, KeepsPlaces, OfSession};
    ghost use Rattle.session_engine.specs.Core.{names, place, seen_by_name, sessions, was_refused};

    /// A core with no session. `rows` are its functors.
    pub fn new(
        alloc: Global,
        classes: ClassTable,
        rows: Items<Functor>,
        turns: u32,
        hashing: RandomState,
    ) -> Result<Core, AllocError>
        requires few { length rows ≤ FUNCTORS }
        requires each { All IsFunctor rows }
        ensures sessions { IfOk result (λ engine. (name : List ℕ) → sessions engine name ≡ fresh) }
        ensures names { IfOk result (λ engine. names engine ≡ []) }
        ensures settings { IfOk result (λ engine. settings engine ≡ record { turns = turns; classes = classes; functors = rows }) }
        ensures refused { IfOk result (λ engine. IsFalse (was_refused engine)) }
    {
        // The look-up is for the proof, which then knows what holds of the table.
        let _base = classes.class_row(0);
        let layouts = layouts(alloc, &classes)?;
        Ok(Core {
            names: IndexSet::with_hasher(alloc, hashing),
            tables: Tables::new(alloc, layouts, hashing),
            memory_refused: false,
            setup: Setup {
                alloc,
                classes,
                functors: rows,
                turns,
            },
        })
    }

    /// The place of a session.
    pub fn find(&self, name: &Text) -> Option<usize>
        ensures { result ≡ place self.now name.now }
    {
        self.names.get_index_of(name)
    }

    /// Every session is sound. There is nothing to run: the clauses are for the proofs of callers.
    pub fn law_sound(&self)
        ensures well { AreWell (seen_by_name self.now) }
        ensures sound { AreSound (seen_by_name self.now) }
    {
        // The loan is for the proof, which then knows what holds of the core.
        let _names = &self.names;
    }

    /// Opens a session for a name that has none, and returns its place.
    pub fn open(&mut self, name: &Text) -> Result<usize, AllocError>
        requires { place self.old name.now ≡ None }
        ensures place { IfOk result (λ at. place self.new name.now ≡ Some at) }
        ensures sessions { sessions self.new ≡ sessions self.old }
        ensures names { OnOk result (names self.new ≡ names self.old ++ name.now ∷ []) }
        ensures settings { settings self.new ≡ settings self.old }
        ensures ok { OnOk result (was_refused self.new ≡ was_refused self.old) }
        ensures err { OnErr result (IsTrue (was_refused self.new) × (names self.new ≡ names self.old)) }
        ensures sound { AreSound (seen_by_name self.new) }
    {
        self.law_sound();
        let before = self.memory_refused;
        // It stays so if memory runs out.
        self.memory_refused = true;
        self.tables.ready()?;
        let name = name.copy(self.setup.alloc)?;
        self.names.insert(name)?;
        self.memory_refused = before;
        Ok(self.tables.open())
    }

    /// Does a command of a session. A session that has failed accepts only `Reset`. If memory runs out, the session
    /// fails.
    pub fn command<F: FunctorTable>(
        &mut self,
        answering: &F,
        at: usize,
        command: &Command,
    ) -> Result<Items<Line>, Fault>
        requires there { IsPlace self.old at }
        requires answers { F.functors answering.now ≡ (settings self.old).functors }
        ensures step { OfSession self.old at (λ name.
            IsStep (seen_by_name self.old) (seen_by_name self.new) name (asked command.now) (answer_lines result)) }
        ensures answered { OfSession self.old at (λ name. IsAnswered self.old self.new name (asked command.now) result) }
        ensures places { KeepsPlaces self.old self.new at }
        ensures settings { settings self.new ≡ settings self.old }
    {
        let Some(name) = self.names.get_index(at) else {
            unreachable!()
        };
        let caller = SessionContext {
            setup: &self.setup,
            name,
            place: at,
        };
        obey(
            &caller,
            answering,
            &mut self.tables,
            &mut self.memory_refused,
            command,
        )
    }

    /// Does a command of a session; a refusal is answered with one line. If there is no memory for this line, the
    /// session fails too.
    pub fn told<F: FunctorTable>(
        &mut self,
        answering: &F,
        at: usize,
        command: &Command,
    ) -> Result<Items<Line>, AllocError>
        requires there { IsPlace self.old at }
        requires answers { F.functors answering.now ≡ (settings self.old).functors }
        ensures step { OfSession self.old at (λ name.
            IsStep (seen_by_name self.old) (seen_by_name self.new) name (asked command.now) (result_ok result)) }
        ensures fails { OfSession self.old at (λ name. OnErr result (sessions self.new name ≡ failed_session)) }
        ensures places { KeepsPlaces self.old self.new at }
        ensures settings { settings self.new ≡ settings self.old }
    {
        match self.command(answering, at, command) {
            Ok(lines) => Ok(lines),
            Err(Fault::Refused(code)) => {
                let Ok(line) = one_line(self.setup.alloc, Line::Error(code)) else {
                    self.give_up(at);
                    return Err(AllocError);
                };
                Ok(line)
            }
            Err(Fault::Memory) => Err(AllocError),
        }
    }

    /// Makes a session fail, for a caller that has run out of memory on its behalf.
    pub fn give_up(&mut self, at: usize)
        requires { IsPlace self.old at }
        ensures fails { OfSession self.old at (λ name. Fails (seen_by_name self.old) (seen_by_name self.new) name) }
        ensures places { KeepsPlaces self.old self.new at }
        ensures settings { settings self.new ≡ settings self.old }
    {
        self.tables.give_up(at);
        self.memory_refused = true;
    }

    /// Whether memory has run out in any call of the core so far.
    pub fn memory_refused(&self) -> bool
        ensures { result ≡ was_refused self.now }
    {
        self.memory_refused
    }
}

/// The sessions of a server. Each has a name, and a place by which calls refer to it. A session is never closed.
pub struct Engine {
    core: Core,
    functors: Functors,
    ghost same: { functors_of functors ≡ (settings core).functors } by { Prim.hlevel (props, codes, functor.the_row.coded) },
}

impl Drop for Engine {
    fn drop(self) {
        let Engine {
            core: _,
            functors: _,
        } = self;
    }
}

impl Engine {
    ghost use Rattle.std.specs.Prelude.{◌<◌, ◌≤◌, length, All, List, ℕ, ◌++◌, ◌∷◌, [], Some, None, IsTrue, IsFalse, IfOk, OnOk, OnErr, map};
    ghost use Rattle.std.specs.Result.{result_ok};
    ghost use Rattle.stored_slots.specs.declared.limit.TheConstants.{FUNCTORS};
    ghost use Rattle.stored_slots.specs.Functors.{IsFunctor};
    ghost use Rattle.session_model.specs.Asked.{asked};
    ghost use Rattle.session_model.specs.Fitting.{IsRightPost};
    ghost use Rattle.session_tables.specs.Session.{fresh, failed_session};
    ghost use Rattle.session_engine.specs.Items.{BeginsAnew, HasAdded, HasArrived, HasCome, IsRightItem, RunsAlone, item_of};
    ghost use Rattle.session_engine.specs.Returning.{IsAnswered, answer_lines};
    ghost use Rattle.session_engine.specs.Sessions.{AreSound, AreWell, Fails, IsStep};
    ghost use Rattle.session_engine.specs.Core.{AreJoinersOf, IsPlace, KeepsPlaces, name_at, OfSession, failed};
    ghost use Rattle.session_engine.specs.Core.{names, place, seen_by_name, sessions, was_refused};
    ghost use Rattle.session_engine.specs.Engine.{seen_engine};

    /// An engine with no session. Its objects may have these classes, and its signals may be connected to these
    /// functors, whose rows it copies. Each command has `turns` turns for the calls that it causes. The names of
    /// sessions are hashed with the keys of `hashing`.
    pub fn new(
        alloc: Global,
        classes: ClassTable,
        functors: Functors,
        rows: Items<Functor>,
        turns: u32,
        hashing: RandomState,
    ) -> Result<Engine, AllocError>
        requires rows { rows ≡ functors_of functors }
        requires few { length rows ≤ FUNCTORS }
        requires each { All IsFunctor rows }
        ensures sessions { IfOk result (λ engine. (name : List ℕ) → sessions (seen_engine engine) name ≡ fresh) }
        ensures names { IfOk result (λ engine. names (seen_engine engine) ≡ []) }
        ensures settings { IfOk result (λ engine.
            settings (seen_engine engine) ≡ record { turns = turns; classes = classes; functors = functors_of functors }) }
        ensures refused { IfOk result (λ engine. IsFalse (was_refused (seen_engine engine))) }
    {
        let core = Core::new(alloc, classes, rows, turns, hashing)?;
        Ok(Engine { core, functors })
    }

    /// The place of a session.
    #[inline(always)]
    pub fn find(&self, name: &Text) -> Option<usize>
        ensures { result ≡ place (seen_engine self.now) name.now }
    {
        self.core.find(name)
    }

    /// How many sessions there are.
    pub fn len(&self) -> usize
        ensures count { result ≡ length (names (seen_engine self.now)) }
        // No two of them have one name.
        ensures named { (at : ℕ) → at < length (names (seen_engine self.now)) → place (seen_engine self.now) (name_at (seen_engine self.now) at) ≡ Some at }
    {
        self.core.names.len()
    }

    /// The places of the sessions with a join that names this session, in rising order. Other sessions are not
    /// visited.
    pub fn joiners(&self, from: &Text) -> Result<Vec<usize>, AllocError>
        ensures { IfOk result (λ places. AreJoinersOf (seen_engine self.now) from.now places.items) }
    {
        self.core.tables.joiners(self.core.setup.alloc, from)
    }

    /// Every session is sound. There is nothing to run: the clauses are for the proofs of callers.
    #[inline(always)]
    pub fn law_sound(&self)
        ensures well { AreWell (seen_by_name (seen_engine self.now)) }
        ensures sound { AreSound (seen_by_name (seen_engine self.now)) }
    {
        self.core.law_sound();
    }

    /// Opens a session for a name that has none, and returns its place.
    #[inline(always)]
    pub fn open(&mut self, name: &Text) -> Result<usize, AllocError>
        requires { place (seen_engine self.old) name.now ≡ None }
        ensures place { IfOk result (λ at. place (seen_engine self.new) name.now ≡ Some at) }
        ensures sessions { sessions (seen_engine self.new) ≡ sessions (seen_engine self.old) }
        ensures names { OnOk result (names (seen_engine self.new) ≡ names (seen_engine self.old) ++ name.now ∷ []) }
        ensures settings { settings (seen_engine self.new) ≡ settings (seen_engine self.old) }
        ensures ok { OnOk result (was_refused (seen_engine self.new) ≡ was_refused (seen_engine self.old)) }
        ensures err { OnErr result (IsTrue (was_refused (seen_engine self.new)) × (names (seen_engine self.new) ≡ names (seen_engine self.old))) }
        ensures sound { AreSound (seen_by_name (seen_engine self.new)) }
    {
        self.core.open(name)
    }

    /// Does a command of a session. A session that has failed accepts only `Reset`. If memory runs out, the session
    /// fails.
    #[inline(always)]
    pub fn command(&mut self, at: usize, command: &Command) -> Result<Items<Line>, Fault>
        requires { IsPlace (seen_engine self.old) at }
        ensures step { OfSession (seen_engine self.old) at (λ name.
            IsStep (seen_by_name (seen_engine self.old)) (seen_by_name (seen_engine self.new)) name (asked command.now) (answer_lines result)) }
        ensures answered { OfSession (seen_engine self.old) at (λ name.
            IsAnswered (seen_engine self.old) (seen_engine self.new) name (asked command.now) result) }
        ensures places { KeepsPlaces (seen_engine self.old) (seen_engine self.new) at }
    {
        self.core.command(&self.functors, at, command)
    }

    /// Does a command of a session; a refusal is answered with one line. If there is no memory for this line, the
    /// session fails too.
    #[inline(always)]
    pub fn told(&mut self, at: usize, command: &Command) -> Result<Items<Line>, AllocError>
        requires { IsPlace (seen_engine self.old) at }
        ensures step { OfSession (seen_engine self.old) at (λ name.
            IsStep (seen_by_name (seen_engine self.old)) (seen_by_name (seen_engine self.new)) name (asked command.now) (result_ok result)) }
        ensures fails { OfSession (seen_engine self.old) at (λ name. OnErr result (sessions (seen_engine self.new) name ≡ failed_session)) }
        ensures places { KeepsPlaces (seen_engine self.old) (seen_engine self.new) at }
    {
        self.core.told(&self.functors, at, command)
    }

    /// Delivers a post of the session `from` to a session. The post has as many arguments as kinds, each of its
    /// kind. A session that has failed ignores it. If memory runs out, the session fails.
    pub fn arrive(&mut self, at: usize, from: &Text, post: &Post) -> Result<(), AllocError>
        requires there { IsPlace (seen_engine self.old) at }
        requires right { IsRightPost post.now }
        ensures arrives { OfSession (seen_engine self.old) at (λ name.
            HasArrived (seen_by_name (seen_engine self.old)) (seen_by_name (seen_engine self.new)) name from.now post.now (result_ok result)) }
        ensures places { KeepsPlaces (seen_engine self.old) (seen_engine self.new) at }
    {
        let setup = &self.core.setup;
        let tables = &mut self.core.tables;
        let arrived = tables.arrive(setup.alloc, &setup.classes, at, from, post);
        if arrived.is_err() {
            self.core.memory_refused = true;
        }
        arrived
    }

    /// Gives a session items, in order, and returns the lines that its commands answer; a refusal is answered with
    /// one line. If memory runs out at an item, the session fails and the later items are not done.
    pub fn alone(&mut self, at: usize, items: &[Item]) -> Result<Items<Line>, AllocError>
        requires there { IsPlace (seen_engine self.old) at }
        requires right { All IsRightItem items.now }
        ensures alone { OfSession (seen_engine self.old) at (λ name.
            RunsAlone (seen_by_name (seen_engine self.old)) (seen_by_name (seen_engine self.new)) name (map item_of items.now) (result_ok result)) }
        ensures fails { OfSession (seen_engine self.old) at (λ name. OnErr result (sessions (seen_engine self.new) name ≡ failed_session)) }
        ensures places { KeepsPlaces (seen_engine self.old) (seen_engine self.new) at }
    {
        let mut told = Items::new(self.core.setup.alloc);
        'items: for item in items {
            self.come(at, item, &mut told)?;
        }
        Ok(told)
    }

    /// Gives a session one item, and appends its lines to `told`.
    fn come(&mut self, at: usize, item: &Item, told: &mut Items<Line>) -> Result<(), AllocError>
        requires there { IsPlace (seen_engine self.old) at }
        requires right { IsRightItem item.now }
        ensures ok { OfSession (seen_engine self.old) at (λ name.
            OnOk result (HasAdded (seen_by_name (seen_engine self.old)) (seen_by_name (seen_engine self.new)) name (item_of item.now) told.old told.new)) }
        ensures err { OfSession (seen_engine self.old) at (λ name.
            OnErr result (HasCome (seen_by_name (seen_engine self.old)) (seen_by_name (seen_engine self.new)) name (item_of item.now) None)) }
        ensures fails { OfSession (seen_engine self.old) at (λ name. OnErr result (sessions (seen_engine self.new) name ≡ failed_session)) }
        ensures places { KeepsPlaces (seen_engine self.old) (seen_engine self.new) at }
    {
        match item {
            Item::Own(command) => {
                let lines = self.told(at, command)?;
                let Ok(()) = append(told, lines) else {
                    self.give_up(at);
                    return Err(AllocError);
                };
                Ok(())
            }
            Item::Arrival(from, post) => self.arrive(at, from, post),
        }
    }

    /// Resets a session to its state before its first command, even if it has failed. The joins of other sessions
    /// remain.
    pub fn reset(&mut self, at: usize)
        requires { IsPlace (seen_engine self.old) at }
        ensures anew { OfSession (seen_engine self.old) at (λ name.
            BeginsAnew (seen_by_name (seen_engine self.old)) (seen_by_name (seen_engine self.new)) name) }
        ensures places { KeepsPlaces (seen_engine self.old) (seen_engine self.new) at }
    {
        self.core.tables.renew(at);
    }

    /// Makes a session fail, for a caller that has run out of memory on its behalf.
    #[inline(always)]
    pub fn give_up(&mut self, at: usize)
        requires { IsPlace (seen_engine self.old) at }
        ensures fails { OfSession (seen_engine self.old) at (λ name. Fails (seen_by_name (seen_engine self.old)) (seen_by_name (seen_engine self.new)) name) }
        ensures places { KeepsPlaces (seen_engine self.old) (seen_engine self.new) at }
    {
        self.core.give_up(at);
    }

    /// Whether a session has failed because it ran out of memory.
    pub fn failed(&self, at: usize) -> bool
        requires { IsPlace (seen_engine self.now) at }
        ensures { OfSession (seen_engine self.now) at (λ name. result ≡ failed (seen_engine self.now) name) }
    {
        self.core.tables.failed(at)
    }

    /// Whether memory has run out in any call of the engine so far.
    #[inline(always)]
    pub fn memory_refused(&self) -> bool
        ensures { result ≡ was_refused (seen_engine self.now) }
    {
        self.core.memory_refused()
    }
}
