//! The objects that actions name, and the values of their expressions.
ghost use Rattle.std.specs.Prelude.{◌≡◌, Err, IfOk};
ghost use Rattle.std.specs.Option.{ok_or, option_copied, option_map_or};
ghost use Rattle.plain_types.specs.Answers.{Answers};
ghost use Rattle.plain_types.specs.declared.code.Code.TheVariants.{BadValue};
ghost use Rattle.session_model.specs.Targets.{all_converted, all_evaluated, evaluated, named_object_of, object_of, truth_evaluated};
ghost use Rattle.session_tables.specs.Tables.{IsPlaced, state_at};
ghost use Rattle.variant_value.specs.Values.{converted};

use plain_types::{Code, Fault, Items, Text};
use session_tables::Tables;
use signature_core::Kind;
use std::alloc::{AllocError, Global};
use term_core::{Expr, Target};
use term_evaluation::{Halt, Reads, evaluate, standing};
use variant_value::Value;

/// Answers the reads of expressions in a slot's body: by the session's current state, the object whose
/// slot it is, and the object that sent the signal, or 0.
#[derive(Clone, Copy)]
pub struct Reader<'a> {
    pub tables: &'a Tables,
    pub place: usize,
    pub object: u32,
    pub sender: u32,
    ghost placed: { IsPlaced tables.now place },
}

impl Reads for Reader<'_> {
    ghost use Rattle.session_model.specs.Targets.{reads};
    ghost use Rattle.session_tables.specs.Tables.{state_at};

    type Own = ();

    ghost reads = { λ r target name. reads (state_at r.tables.now r.place) r.object r.sender target name };

    fn read(&self, _alloc: Global, target: &Target, name: &Text) -> Result<Value, Halt<()>> {
        let object = object_of(self, target)?;
        if self.tables.forests.row(self.place, object).is_none() {
            return Err(Halt::Refused(Code::NoSuchObject));
        }
        match self.tables.stores.named(self.place, object, name.as_str())? {
            Some(value) => Ok(value),
            None => Err(Halt::Refused(Code::NoSuchProperty)),
        }
    }
}

/// The number of the object that a target names, or 0 where the child or the sender is missing.
#[inline(always)]
pub fn object_of(reader: &Reader, target: &Target) -> Result<u32, AllocError>
    ensures { IfOk result (λ object. object ≡ object_of (state_at reader.now.tables.now reader.now.place) reader.now.object reader.now.sender target.now) }
{
    match target {
        Target::Itself => Ok(reader.object),
        Target::Sender => Ok(reader.sender),
        Target::Child(title) => {
            let found = reader
                .tables
                .child(reader.place, reader.object, title.as_str())?;
            Ok(found.unwrap_or(0))
        }
        Target::Object(number) => Ok(*number),
    }
}

/// Returns the object of a target, which need not be named.
pub fn named_object_of(reader: &Reader, target: &Option<Target>) -> Result<Option<u32>, AllocError>
    ensures { IfOk result (λ object.
        object ≡ named_object_of (state_at reader.now.tables.now reader.now.place) reader.now.object reader.now.sender target.now) }
{
    match target {
        Some(target) => Ok(Some(object_of(reader, target)?)),
        None => Ok(None),
    }
}

/// The value of an expression over the slot's arguments.
pub fn evaluated(
    alloc: Global,
    reader: &Reader,
    args: &[Value],
    expr: &Expr,
) -> Result<Value, Fault>
    ensures { Answers result (evaluated (state_at reader.now.tables.now reader.now.place) reader.now.object reader.now.sender args.now expr.now) }
{
    if let Some(value) = standing(expr, args) {
        return Ok(value.copy(alloc)?);
    }
    match evaluate(alloc, expr, args, reader) {
        Ok(value) => Ok(value),
        Err(Halt::Refused(code)) => Err(Fault::Refused(code)),
        Err(Halt::Own(())) => Err(Fault::Refused(Code::BadValue)),
        Err(Halt::Memory) => Err(Fault::Memory),
    }
}

/// The values of expressions, from left to right; the first fault ends it.
pub fn all_evaluated(
    alloc: Global,
    reader: &Reader,
    args: &[Value],
    exprs: &[Expr],
) -> Result<Items<Value>, Fault>
    ensures { Answers result (all_evaluated (state_at reader.now.tables.now reader.now.place) reader.now.object reader.now.sender args.now exprs.now) }
{
    let mut values = Items::new(alloc);
    for expr in exprs {
        values.push(evaluated(alloc, reader, args, expr)?)?;
    }
    Ok(values)
}

/// The truth that an expression is.
pub fn truth_evaluated(
    alloc: Global,
    reader: &Reader,
    args: &[Value],
    expr: &Expr,
) -> Result<bool, Fault>
    ensures { Answers result (truth_evaluated (state_at reader.now.tables.now reader.now.place) reader.now.object reader.now.sender args.now expr.now) }
{
    match &evaluated(alloc, reader, args, expr)? {
        Value::Bool(truth) => Ok(*truth),
        _ => Err(Fault::Refused(Code::BadValue)),
    }
}

/// Converts values to these kinds. There are as many values as kinds, and each becomes one of its kind.
pub fn all_converted(
    alloc: Global,
    kinds: &[Kind],
    values: Items<Value>,
) -> Result<Items<Value>, Fault>
    ensures { Answers result (all_converted kinds.now values) }
{
    let mut converted = Items::new(alloc);
    let mut at = 0;
    for value in values.into_vec() {
        converted.push(value_as(value, kinds.get(at))?)?;
        at += 1;
    }
    if at < kinds.len() {
        return Err(Fault::Refused(Code::BadValue));
    }
    Ok(converted)
}

/// The value as one of this kind, where there is a kind.
fn value_as(value: Value, kind: Option<&Kind>) -> Result<Value, Code>
    ensures { result ≡ option_map_or (λ kind. ok_or (converted kind value) BadValue) (option_copied kind.entry) (Err BadValue) }
{
    let Some(kind) = kind else {
        return Err(Code::BadValue);
    };
    match value.convert(*kind) {
        Ok(value) => Ok(value),
        Err(_) => Err(Code::BadValue),
    }
}
