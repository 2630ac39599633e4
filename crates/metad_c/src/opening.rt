//! Opens servers for host programs.
ghost use Rattle.std.specs.Prelude.{◌≡◌, IfErr, IfOk, Ok};
ghost use Rattle.stored_slots.specs.Table.{functors_of};
ghost use Rattle.command_line.specs.Clamp.{Clamps, IsNumber};
ghost use Rattle.command_line.specs.Count.{Counts};
ghost use Rattle.command_line.specs.Demonstration.{demonstration};
ghost use Rattle.metad_c.specs.Functors.{program_functors};
ghost use Rattle.metad_c.specs.Opening.{IsOpened, StopsAfterClasses, StopsAtClasses, classes_of};

use crate::fixed_functors::FixedFunctors;
use crate::kept::Kept;
use crate::keys::Keys;
use crate::output::Output;
use class_table::{ClassError, ClassFault, ClassTable};
use command_line::{add_count, clamp_answer, classes_of, count_answer, with_clamp};
use json::Scratch;
use server_world::BareServer;
use std::alloc::{AllocError, Global};
use std::hash::RandomState;
use stored_slots::Functors;
use term_core::Action;
use variant_value::Value;
use wire_format::Counted;

/// Why there is no server.
#[derive(Clone, Copy)]
pub(crate) enum Stop {
    /// The class file has this fault.
    Classes(ClassFault),
    /// There are too few random bytes.
    Keys,
    /// There was no memory.
    Memory,
}

impl From<AllocError> for Stop {
    ghost use Rattle.metad_c.specs.declared.opening.Stop.TheVariants.{Memory};

    ghost from_gives = { λ _ stop. stop ≡ Memory };

    fn from(_error: AllocError) -> Stop {
        Stop::Memory
    }
}

/// The classes that a class file gives, or the demonstration classes where it is empty.
pub(crate) fn classes_from(alloc: Global, bytes: &[u8]) -> Result<ClassTable, Stop>
    ensures classes { IfOk result (λ classes. classes_of bytes.now ≡ Ok classes) }
    ensures stopped { IfErr result (λ stop. StopsAtClasses bytes.now stop) }
{
    if bytes.is_empty() {
        return demonstration_classes(alloc);
    }
    match ClassTable::from_text(alloc, bytes) {
        Ok(classes) => Ok(classes),
        Err(ClassError::Fault(fault)) => Err(Stop::Classes(fault)),
        Err(ClassError::Memory) => Err(Stop::Memory),
    }
}

/// The demonstration classes.
fn demonstration_classes(alloc: Global) -> Result<ClassTable, Stop>
    ensures classes { IfOk result (λ classes. classes ≡ demonstration) }
    ensures stopped { IfErr result (λ stop. stop ≡ Stop.Memory) }
{
    match classes_of(alloc, None::<Counted<&[u8]>>) {
        Ok(classes) => Ok(classes),
        Err(_) => Err(Stop::Memory),
    }
}

/// A server with these classes and turns, and with the functors of the program. The closures are made so that they
/// are proved to be those functors. The server does not keep them: `FixedFunctors` answers for them.
pub(crate) fn opened(
    alloc: Global,
    classes: ClassTable,
    turns: u32,
    keys: &[u8],
) -> Result<Kept, Stop>
    ensures opened { IfOk result (λ kept. IsOpened classes turns kept) }
    ensures stopped { IfErr result (λ stop. StopsAfterClasses keys.now stop) }
{
    let (least, most) = (0, 100);
    let Ok(clamp) = Box::new(
        alloc,
        move |alloc: Global, found: u64, args: &[Value]| -> Result<(Vec<Action>, u64), AllocError>
            requires { IsNumber args.now }
            ensures { Clamps least most found args.now result }
        { clamp_answer(alloc, least, most, found, args) },
    ) else {
        return Err(Stop::Memory);
    };
    let Ok(mut functors) = with_clamp(alloc, least, most, clamp) else {
        return Err(Stop::Memory);
    };
    let Ok(count) = Box::new(
        alloc,
        |alloc: Global, found: u64, args: &[Value]| -> Result<(Vec<Action>, u64), AllocError>
            ensures { Counts found args.now result }
        { count_answer(alloc, found, args) },
    ) else {
        return Err(Stop::Memory);
    };
    if add_count(alloc, &mut functors, least, most, count).is_err() {
        return Err(Stop::Memory);
    }
    opened_with(alloc, classes, functors, turns, keys)
}

/// Opens a server that has these functors.
fn opened_with(
    alloc: Global,
    classes: ClassTable,
    functors: Functors,
    turns: u32,
    keys: &[u8],
) -> Result<Kept, Stop>
    requires { functors_of functors ≡ program_functors }
    ensures opened { IfOk result (λ kept. IsOpened classes turns kept) }
    ensures stopped { IfErr result (λ stop. StopsAfterClasses keys.now stop) }
{
    if keys.len() < 16 {
        return Err(Stop::Keys);
    }
    let Ok(hashing) = RandomState::new(&Keys { bytes: keys }) else {
        return Err(Stop::Memory);
    };
    Ok(Kept {
        server: BareServer::new(alloc, classes, &functors, turns, hashing)?,
        functors: FixedFunctors { alloc },
        output: Output::new(alloc),
        scratch: Scratch::new(alloc),
    })
}
