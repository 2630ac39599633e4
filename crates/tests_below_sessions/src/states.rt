//! The states of functors: what gives the next one, and how it is put into a body.
use crate::bodies::first_value;
use crate::cases::{Cases, first_wrong, part, shown, word};
use plain_types::Fault;
use serde_json::Value as Json;
use std::alloc::Global;
use std::test::Fail;
use term_core::{Body, Expr};
use term_evaluation::{NoObjects, after, evaluate, unfold};
use variant_value::Value;

/// Each case has an expression for the next state, the state before a call, the call's argument, and the state
/// after it, or the code by which the expression is refused. In order: states that stay or count, the largest
/// too; values that can and cannot be a state; a fault, and one in a branch that is not taken; refused expressions.
const NEXT: &str = r#"[
[{"state":true}, 7, 1, "7"],
[{"+":[{"state":true},{"const":1}]}, 7, 1, "8"],
[{"+":[{"state":true},{"const":1}]}, 18446744073709551615, 1, "18446744073709551615"],
[{"-":[{"state":true},{"const":1}]}, 18446744073709551615, 1, "18446744073709551614"],
[{"-":[{"state":true},{"const":1}]}, 0, 1, "0"],
[{"arg":0}, 7, 5, "5"],
[{"arg":0}, 7, -5, "7"],
[{"const":"5"}, 7, 1, "7"],
[{"const":true}, 7, 1, "7"],
[{"const":18446744073709551615}, 7, 1, "18446744073709551615"],
[{"+":[{"state":true},{"const":"1"}]}, 7, 1, "7"],
[{"if":[{"<":[{"state":true},{"arg":0}]},{"+":[{"state":true},{"arg":0}]},{"const":"1"}]}, 2, 5, "7"],
[{"if":[{"<":[{"state":true},{"arg":0}]},{"+":[{"state":true},{"arg":0}]},{"const":"1"}]}, 5, 5, "5"],
[{"arg":1}, 7, 1, "E22"],
[{"prop":"x"}, 7, 1, "E22"],
[{"prop":"x","of":1}, 7, 1, "E22"],
[{"state":false}, 7, 1, "E22"],
[{"state":1}, 7, 1, "E22"],
[{"state":true,"of":"self"}, 7, 1, "E22"]]"#;

/// The state that follows, as text, or the code by which what gives it is refused.
fn follows(alloc: Global, case: &Json) -> Result<String, Fault> {
    let state = part(case, 1).as_u64().unwrap_or(0);
    let given = Value::infer(alloc, part(case, 2))?;
    match Expr::next_from_json(alloc, part(case, 0), 1) {
        Ok(next) => Ok(after(alloc, &next, state, &[given])?.to_string(alloc)?),
        Err(Fault::Refused(code)) => Ok(String::from_str(alloc, code.text())?),
        Err(Fault::Memory) => Err(Fault::Memory),
    }
}

/// The cases of `NEXT`.
struct NextStates;

impl Cases for NextStates {
    fn text() -> &'static str {
        NEXT
    }

    fn is_as_wanted(alloc: Global, case: &Json) -> Result<bool, Fault> {
        Ok(follows(alloc, case)?.as_str() == word(case, 3))
    }
}

#[test]
fn states_follow_one_another(rt: HostRuntime) -> Result<(), Fail> {
    assert_eq!(rt; first_wrong::<NextStates>(rt.alloc())?, (19, None));
    Ok(())
}

/// A body that sets a property to its state.
fn body(alloc: Global) -> Result<Body, Fault> {
    match Json::from_str(alloc, r#"[{"set":"p","to":{"state":true}}]"#) {
        Ok(json) => Body::from_json_state(alloc, &json, 0),
        Err(_) => Err(Fault::Memory),
    }
}

/// The value that the body sets over this state, with its kind.
fn set_over(alloc: Global, state: u64) -> Result<String, Fault> {
    let actions = unfold(alloc, &body(alloc)?, state, &[])?;
    let Some(expr) = first_value(actions.as_slice()) else {
        return Err(Fault::Memory);
    };
    match evaluate(alloc, expr, &[], &NoObjects) {
        Ok(value) => Ok(shown(alloc, &value)?),
        Err(_) => Err(Fault::Memory),
    }
}

/// Whether a state is put in as a number of the first kind that holds it.
fn are_put_in(alloc: Global) -> Result<bool, Fault> {
    Ok(
        set_over(alloc, 0)?.as_str() == "int 0"
            && set_over(alloc, 2147483648)?.as_str() == "qlonglong 2147483648"
            && set_over(alloc, u64::MAX)?.as_str() == "qulonglong 18446744073709551615",
    )
}

#[test]
fn states_are_put_into_bodies(rt: HostRuntime) -> Result<(), Fail> {
    assert!(rt; are_put_in(rt.alloc())?);
    Ok(())
}
