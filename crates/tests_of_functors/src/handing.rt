//! `clamp` is handed in and called.
ghost use Rattle.command_line.specs.Clamp.{Clamps, IsNumber};

use command_line::{clamp_answer, with_clamp};
use plain_types::Fault;
use std::alloc::{AllocError, Global};
use stored_slots::Closure;
use term_core::Action;
use variant_value::Value;

/// Hands in `clamp`, which keeps a number between the bounds 0 and 100 that its closure captures, and
/// calls it with each of these numbers: what it answers.
pub fn answers(alloc: Global, given: &[i32]) -> Result<Vec<Vec<Action>>, Fault> {
    let (least, most) = (0, 100);
    let run: Closure = Box::new(
        alloc,
        move |alloc: Global, found: u64, args: &[Value]| -> Result<(Vec<Action>, u64), AllocError>
            requires { IsNumber args.now }
            ensures { Clamps least most found args.now result }
        { clamp_answer(alloc, least, most, found, args) },
    )?;
    let functors = with_clamp(alloc, least, most, run)?;
    let mut answers = Vec::new(alloc);
    for number in given {
        let (actions, _) = functors.call(0, 0, &[Value::Int(*number)])?;
        answers.push(actions)?;
    }
    Ok(answers)
}
