//! Evaluations that note the properties they read.
ghost use Rattle.std.specs.Prelude.{◌≡◌, ◌∷◌, [], ◌++◌, filter_map};
ghost use Rattle.term_evaluation.specs.Evaluation.{eval_by};
ghost use Rattle.term_evaluation.specs.Met.{met_by};
ghost use Rattle.term_evaluation.specs.Outcomes.{Ends, IfEnds};
ghost use Rattle.term_evaluation.specs.Scalars.{held};

use crate::evaluation::argument;
use crate::halt::Halt;
use crate::scalar::{Scalar, apply_to, constant, held, put_aside, refuse, take, truth_of};
use plain_types::{Code, Text};
use std::alloc::Global;
use term_core::{Expr, Node, Target};
use variant_value::Value;

/// A reader that notes the properties it reads.
pub trait Notes {
    ghost use Rattle.std.specs.Prelude.{◌≡◌, ◌∷◌, [], ◌++◌, ℕ, List, Option, filter_map};
    ghost use Rattle.term_core.specs.declared.target.Target.{Target};
    ghost use Rattle.term_evaluation.specs.declared.reading.Read.{Read};
    ghost use Rattle.term_evaluation.specs.Outcomes.{Answer, Ends, IfEnds};

    /// The reader may answer these besides the codes.
    type Own: Drop;

    type Note: Drop;

    /// Reading a property of an object gives its value, or why it has none.
    ghost reads: { Self → Target → List ℕ → Answer Self.Own };

    /// The note of a property that is read, if it is noted.
    ghost note: { Self → Read → Option Self.Note };

    /// The value of a property of an object. Appends to `noted` what is noted of it.
    fn read(
        &self,
        alloc: Global,
        target: &Target,
        name: &Text,
        noted: &mut Vec<Self::Note>,
    ) -> Result<Value, Halt<Self::Own>>
        ensures value { Ends result (reads self.now target.now name.now) }
        ensures noted { IfEnds result
            (noted.new.items ≡ noted.old.items ++ filter_map (note self.now) (record { target = target.now; name = name.now } ∷ [])) };
}

/// The value of an expression, as `evaluate` gives it. Appends to `noted` what the reader notes of the properties that
/// are really read, in order.
pub fn meet<R: Notes>(
    alloc: Global,
    expr: &Expr,
    args: &[Value],
    reader: &R,
    noted: &mut Vec<R::Note>,
) -> Result<Value, Halt<R::Own>>
    ensures value { Ends result (eval_by args.now (R.reads reader.now) expr.now) }
    ensures noted { IfEnds result
        (noted.new.items ≡ noted.old.items ++ filter_map (R.note reader.now) (met_by args.now (R.reads reader.now) expr.now)) }
{
    let mut aside = Err(Halt::Memory);
    let scalar = meet_form(alloc, expr, args, reader, noted, &mut aside);
    held(scalar, aside)
}

#[cycle(meet_form)]
fn meet_form<R: Notes>(
    alloc: Global,
    expr: &Expr,
    args: &[Value],
    reader: &R,
    noted: &mut Vec<R::Note>,
    aside: &mut Result<Value, Halt<R::Own>>,
) -> Scalar
    ensures value { Ends (held result aside.new) (eval_by args.now (R.reads reader.now) expr.now) }
    ensures noted { IfEnds (held result aside.new)
        (noted.new.items ≡ noted.old.items ++ filter_map (R.note reader.now) (met_by args.now (R.reads reader.now) expr.now)) }
{
    match &expr.node {
        Node::Const(value) => constant(alloc, value, aside),
        Node::Arg(place) => argument(alloc, args, *place, aside),
        Node::State => refuse(Code::BadValue, aside),
        Node::Prop(target, name) => read_aside(alloc, target, name, reader, noted, aside),
        Node::Binary(operator, a, b) => {
            let first = operand(alloc, a, args, reader, noted, aside);
            let mut value = Value::Invalid;
            if !take(first, aside, &mut value) {
                return Scalar::Other;
            }
            let second = operand(alloc, b, args, reader, noted, aside);
            apply_to(alloc, *operator, &value, second, aside)
        }
        Node::Choice(test, held, failed) => {
            let test = meet_form(alloc, test, args, reader, noted, aside);
            match truth_of(test, aside) {
                Some(true) => meet_form(alloc, held, args, reader, noted, aside),
                Some(false) => meet_form(alloc, failed, args, reader, noted, aside),
                None => Scalar::Other,
            }
        }
    }
}

#[inline(never)]
fn read_aside<R: Notes>(
    alloc: Global,
    target: &Target,
    name: &Text,
    reader: &R,
    noted: &mut Vec<R::Note>,
    aside: &mut Result<Value, Halt<R::Own>>,
) -> Scalar
    ensures value { Ends (held result aside.new) (R.reads reader.now target.now name.now) }
    ensures noted { IfEnds (held result aside.new)
        (noted.new.items ≡ noted.old.items ++ filter_map (R.note reader.now) (record { target = target.now; name = name.now } ∷ [])) }
{
    put_aside(reader.read(alloc, target, name, noted), aside)
}

/// The value of an operand. Many operands are constants.
#[inline(always)]
#[cycle(meet_form)]
fn operand<R: Notes>(
    alloc: Global,
    expr: &Expr,
    args: &[Value],
    reader: &R,
    noted: &mut Vec<R::Note>,
    aside: &mut Result<Value, Halt<R::Own>>,
) -> Scalar
    ensures value { Ends (held result aside.new) (eval_by args.now (R.reads reader.now) expr.now) }
    ensures noted { IfEnds (held result aside.new)
        (noted.new.items ≡ noted.old.items ++ filter_map (R.note reader.now) (met_by args.now (R.reads reader.now) expr.now)) }
{
    match &expr.node {
        Node::Const(Value::Int(number)) => Scalar::Int(*number),
        _ => meet_form(alloc, expr, args, reader, noted, aside),
    }
}
