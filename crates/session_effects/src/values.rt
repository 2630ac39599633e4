//! Arguments in JSON as values.
ghost use Rattle.std.specs.Prelude.{◌≡◌, map};
ghost use Rattle.serde_json.specs.View.{view};
ghost use Rattle.plain_types.specs.Answers.{Answers};
ghost use Rattle.session_model.specs.Signals.{values_of};
ghost use Rattle.session_effects.specs.Values.{is_limit};

use plain_types::{Code, Fault, Items};
use signature_core::Kind;
use std::alloc::Global;
use variant_value::Value;

/// Converts values to these kinds. There are as many values as kinds, and each becomes one of its kind. Of two
/// faults one that is no value comes before a text that is too long.
pub fn values_of(
    alloc: Global,
    kinds: &[Kind],
    args: &[serde_json::Value],
) -> Result<Items<Value>, Fault>
    ensures { Answers result (values_of kinds.now (map view args.now)) }
{
    let mut values = Items::new(alloc);
    let mut is_long = false;
    let mut at = 0;
    for json in args {
        let Some(kind) = kinds.get(at) else {
            return Err(Fault::Refused(Code::BadValue));
        };
        match Value::from_json(alloc, *kind, json) {
            Ok(value) => values.push(value)?,
            Err(Fault::Refused(code)) => {
                if !is_limit(code) {
                    return Err(Fault::Refused(code));
                }
                is_long = true;
            }
            Err(Fault::Memory) => return Err(Fault::Memory),
        }
        at += 1;
    }
    if at < kinds.len() {
        return Err(Fault::Refused(Code::BadValue));
    }
    if is_long {
        return Err(Fault::Refused(Code::Limit));
    }
    Ok(values)
}

fn is_limit(code: Code) -> bool
    ensures { result ≡ is_limit code }
{
    match code {
        Code::Limit => true,
        _ => false,
    }
}
