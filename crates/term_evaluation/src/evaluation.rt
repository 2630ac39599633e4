//! The value of an expression.
ghost use Rattle.std.specs.Prelude.{◌≡◌, ℕ, List};
ghost use Rattle.std.specs.Option.{option_map};
ghost use Rattle.term_core.specs.declared.target.Target.{Target};
ghost use Rattle.term_evaluation.specs.Evaluation.{argument, eval_by, standing};
ghost use Rattle.term_evaluation.specs.Outcomes.{Answer, Ends, answer};
ghost use Rattle.term_evaluation.specs.Scalars.{held};

use crate::halt::Halt;
use crate::scalar::{Scalar, apply_to, constant, held, put_aside, refuse, take, truth_of};
use plain_types::{Code, Text};
use std::alloc::Global;
use term_core::{Expr, Node, Target};
use variant_value::Value;

/// A reader reads the properties that an expression names.
pub trait Reads {
    /// The reader may answer these besides the codes.
    type Own: Drop;

    /// Reading a property of an object gives its value, or why it has none.
    ghost reads: { Self → Target → List ℕ → Answer Self.Own };

    /// The value of a property of an object.
    fn read(&self, alloc: Global, target: &Target, name: &Text) -> Result<Value, Halt<Self::Own>>
        ensures { Ends result (reads self.now target.now name.now) };
}

/// The reader of nothing: there is no object. It serves expressions of constants and arguments.
#[derive(Drop)]
pub struct NoObjects;

impl Reads for NoObjects {
    ghost use Rattle.std.specs.Prelude.{Err};
    ghost use Rattle.plain_types.specs.declared.code.Code.TheVariants.{NoSuchObject};
    ghost use Rattle.term_evaluation.specs.Outcomes.{refused};

    type Own = ();

    ghost reads = { λ _ _ _. Err (refused NoSuchObject) };

    fn read(&self, _alloc: Global, _target: &Target, _name: &Text) -> Result<Value, Halt<()>> {
        Err(Halt::Refused(Code::NoSuchObject))
    }
}

/// The value of the expression, from left to right; the first fault ends it. Of two operands both are
/// evaluated before their kinds are looked at, of a choice the test and then the branch that is taken.
/// Operands of a wrong kind, a test that is no truth, a number below -2^63 or above 2^64 - 1, an
/// argument that is not given and a state, for which no number was put in, are `BadValue`; a text of more than `TEXT_BYTES` is `Limit`.
pub fn evaluate<R: Reads>(
    alloc: Global,
    expr: &Expr,
    args: &[Value],
    reader: &R,
) -> Result<Value, Halt<R::Own>>
    ensures { Ends result (eval_by args.now (R.reads reader.now) expr.now) }
{
    let mut aside = Err(Halt::Memory);
    let scalar = evaluate_form(alloc, expr, args, reader, &mut aside);
    held(scalar, aside)
}

fn evaluate_form<R: Reads>(
    alloc: Global,
    expr: &Expr,
    args: &[Value],
    reader: &R,
    aside: &mut Result<Value, Halt<R::Own>>,
) -> Scalar
    ensures { Ends (held result aside.new) (eval_by args.now (R.reads reader.now) expr.now) }
{
    match &expr.node {
        Node::Const(value) => constant(alloc, value, aside),
        Node::Arg(place) => argument(alloc, args, *place, aside),
        Node::State => refuse(Code::BadValue, aside),
        Node::Prop(target, name) => put_aside(reader.read(alloc, target, name), aside),
        Node::Binary(operator, a, b) => {
            let first = evaluate_form(alloc, a, args, reader, aside);
            let mut value = Value::Invalid;
            if !take(first, aside, &mut value) {
                return Scalar::Other;
            }
            let second = evaluate_form(alloc, b, args, reader, aside);
            apply_to(alloc, *operator, &value, second, aside)
        }
        Node::Choice(test, held, failed) => {
            let test = evaluate_form(alloc, test, args, reader, aside);
            match truth_of(test, aside) {
                Some(true) => evaluate_form(alloc, held, args, reader, aside),
                Some(false) => evaluate_form(alloc, failed, args, reader, aside),
                None => Scalar::Other,
            }
        }
    }
}

/// A reference to the value of an expression that is a constant or a given argument, which takes neither
/// a reader nor a copy; `None` for any other expression.
pub fn standing<'a>(expr: &'a Expr, args: &'a [Value]) -> Option<&'a Value>
    ensures { option_map (λ value. value.now) result ≡ standing args.now expr.now }
{
    match &expr.node {
        Node::Const(value) => Some(value),
        Node::Arg(place) => args.get(*place),
        Node::State | Node::Prop(..) | Node::Binary(..) | Node::Choice(..) => None,
    }
}

pub(crate) fn argument<O: Drop>(
    alloc: Global,
    args: &[Value],
    place: usize,
    aside: &mut Result<Value, Halt<O>>,
) -> Scalar
    ensures { Ends (held result aside.new) (answer (argument args.now place)) }
{
    match args.get(place) {
        Some(value) => constant(alloc, value, aside),
        None => refuse(Code::BadValue, aside),
    }
}
