//! Evaluations that note the properties they read.
ghost use Rattle.std.specs.Prelude.{◌≡◌, IfOk};
ghost use Rattle.binding_values.specs.Looking.{IsReady, scene_in, values_in};
ghost use Rattle.binding_values.specs.Scene.{evaluated, met};

use crate::eval_result::EvalResult;
use crate::known::{Known, named};
use crate::property::BindingError;
use plain_types::{Code, Items, Text};
use property_store::Property;
use signature_core::Kind;
use std::alloc::{AllocError, Global};
use term_core::{Expr, Target};
use term_evaluation::{Halt, Notes, meet};
use variant_value::Value;

/// Answers the reads of an object's binding while its expression is evaluated, by the values that are known.
#[derive(Clone, Copy)]
struct Meeting<'a> {
    known: Known<'a>,
    object: u32,
    ghost ready: { IsReady known },
}

impl Notes for Meeting<'_> {
    ghost use Rattle.binding_values.specs.Looking.{scene_in, values_in};
    ghost use Rattle.binding_values.specs.Scene.{reader};

    type Own = BindingError;

    type Note = Property;

    ghost reads = { λ meeting. reader (scene_in meeting.known) (values_in meeting.known) meeting.object };

    ghost note = { λ meeting read. (scene_in meeting.known).named meeting.object read.target read.name };

    fn read(
        &self,
        alloc: Global,
        target: &Target,
        name: &Text,
        noted: &mut Vec<Property>,
    ) -> Result<Value, Halt<BindingError>> {
        let known = &self.known;
        let Some(at) = named(known.stores, known.place, self.object, target, name) else {
            return Err(Halt::Refused(Code::NoSuchProperty));
        };
        if noted.push(at).is_err() {
            return Err(Halt::Memory);
        }
        known.read(alloc, at)
    }
}

/// Returns the result that an evaluation of a binding gives.
pub(crate) fn attempt(
    alloc: Global,
    known: &Known,
    at: Property,
    kind: Kind,
    expr: &Expr,
) -> Result<EvalResult, AllocError>
    requires { IsReady known.now }
    ensures outcome { IfOk result (λ kept. kept.outcome ≡ evaluated (scene_in known.now) (values_in known.now) at.object kind expr.now) }
    ensures reads { IfOk result (λ kept. kept.reads ≡ met (scene_in known.now) (values_in known.now) at.object expr.now) }
{
    let reader = Meeting {
        known: *known,
        object: at.object,
    };
    let mut noted = Vec::new(alloc);
    let outcome = match meet(alloc, expr, &[], &reader, &mut noted) {
        Ok(value) => value
            .convert(kind)
            .map_err(|_| BindingError::EvaluationError),
        Err(Halt::Own(error)) => Err(error),
        Err(Halt::Refused(_)) => Err(BindingError::EvaluationError),
        Err(Halt::Memory) => return Err(AllocError),
    };
    Ok(EvalResult {
        outcome,
        reads: Items::from_vec(noted),
    })
}
