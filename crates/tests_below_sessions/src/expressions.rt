//! Expressions: how they are read, what they read, and their values.
use crate::bodies::{branch, first_value};
use crate::cases::{Cases, first_wrong, part, shown, word};
use plain_types::{Code, Fault, Text};
use serde_json::Value as Json;
use std::alloc::{AllocError, Global};
use std::test::Fail;
use term_core::{Action, Body, Expr, Target};
use term_evaluation::{Halt, NoObjects, Reads, evaluate, reads_of, standing, unfold};
use variant_value::Value;

/// A fault of this reader's own.
#[derive(Drop)]
struct Loop;

/// Reads of the object itself `x`, which is 7, and `loop`, which depends on itself; of the object 2
/// `gone`, which is refused.
#[derive(Drop)]
struct Cell;

impl Reads for Cell {
    ghost use Rattle.std.specs.Prelude.{[], ◌∷◌, Ok, Err, codes, pos};
    ghost use Rattle.plain_types.specs.declared.code.Code.TheVariants.{Dying};
    ghost use Rattle.term_core.specs.declared.target.Target.TheVariants.{Itself, Object};
    ghost use Rattle.variant_value.specs.declared.value.Value.TheVariants.{Int};
    ghost use Rattle.term_evaluation.specs.Known.{read_of};
    ghost use Rattle.term_evaluation.specs.Outcomes.{refused, own};

    type Own = Loop;

    ghost reads = { λ _. read_of (record { target = Itself; name = codes "x"; answer = Ok (Int (pos 7)) }
        ∷ record { target = Itself; name = codes "loop"; answer = Err (own (record {})) }
        ∷ record { target = Object 2; name = codes "gone"; answer = Err (refused Dying) } ∷ []) };

    fn read(&self, _alloc: Global, target: &Target, name: &Text) -> Result<Value, Halt<Loop>> {
        match target {
            Target::Itself => match name.as_str() {
                "x" => Ok(Value::Int(7)),
                "loop" => Err(Halt::Own(Loop)),
                _ => Err(Halt::Refused(Code::NoSuchProperty)),
            },
            Target::Object(2) => match name.as_str() {
                "gone" => Err(Halt::Refused(Code::Dying)),
                _ => Err(Halt::Refused(Code::NoSuchProperty)),
            },
            Target::Sender | Target::Child(_) | Target::Object(_) => {
                Err(Halt::Refused(Code::NoSuchObject))
            }
        }
    }
}

/// Bodies, and what the expression of each ends with over the arguments 5, of the kind `uint`, and true.
/// In order: constants, arguments and properties; sums and differences, of the first kind that fits;
/// comparisons, of numbers by their worth; choices, where a test that is no truth comes before what the
/// branches are; the first fault, where both operands come before their kinds; texts.
const VALUES: &str = r#"[
[[{"set":"p","to":{"const":7}}], "int 7"],
[[{"set":"p","to":{"const":true}}], "bool true"],
[[{"set":"p","to":{"const":"a"}}], "QString \"a\""],
[[{"set":"p","to":{"arg":0}}], "uint 5"],
[[{"set":"p","to":{"arg":1}}], "bool true"],
[[{"set":"p","to":{"arg":2}}], "E22"],
[[{"set":"p","to":{"prop":"x"}}], "int 7"],
[[{"set":"p","to":{"of":"self","prop":"x"}}], "int 7"],
[[{"set":"p","to":{"prop":"loop"}}], "loop"],
[[{"set":"p","to":{"prop":"gone","of":2}}], "E13"],
[[{"set":"p","to":{"prop":"y"}}], "E11"],
[[{"set":"p","to":{"prop":"x","of":2}}], "E11"],
[[{"set":"p","to":{"prop":"x","of":4294967295}}], "E04"],
[[{"set":"p","to":{"prop":"x","of":"sender"}}], "E04"],
[[{"set":"p","to":{"prop":"x","of":{"child":"x"}}}], "E04"],
[[{"set":"p","to":{"+":[{"prop":"x"},{"arg":0}]}}], "int 12"],
[[{"set":"p","to":{"-":[{"arg":0},{"prop":"x"}]}}], "int -2"],
[[{"set":"p","to":{"+":[{"const":2147483647},{"const":1}]}}], "qlonglong 2147483648"],
[[{"set":"p","to":{"-":[{"const":-2147483648},{"const":1}]}}], "qlonglong -2147483649"],
[[{"set":"p","to":{"+":[{"const":9223372036854775807},{"const":1}]}}], "qulonglong 9223372036854775808"],
[[{"set":"p","to":{"+":[{"const":9223372036854775807},{"const":9223372036854775808}]}}], "qulonglong 18446744073709551615"],
[[{"set":"p","to":{"+":[{"const":18446744073709551615},{"const":1}]}}], "E22"],
[[{"set":"p","to":{"-":[{"const":-9223372036854775807},{"const":1}]}}], "qlonglong -9223372036854775808"],
[[{"set":"p","to":{"-":[{"const":-9223372036854775808},{"const":1}]}}], "E22"],
[[{"set":"p","to":{"+":[{"const":1},{"const":"1"}]}}], "E22"],
[[{"set":"p","to":{"-":[{"const":true},{"const":1}]}}], "E22"],
[[{"set":"p","to":{"<":[{"const":1},{"const":2}]}}], "bool true"],
[[{"set":"p","to":{"<":[{"const":2},{"const":2}]}}], "bool false"],
[[{"set":"p","to":{"<":[{"const":-1},{"const":18446744073709551615}]}}], "bool true"],
[[{"set":"p","to":{"<":[{"const":"a"},{"const":"b"}]}}], "E22"],
[[{"set":"p","to":{"=":[{"arg":0},{"const":5}]}}], "bool true"],
[[{"set":"p","to":{"=":[{"arg":1},{"const":false}]}}], "bool false"],
[[{"set":"p","to":{"=":[{"const":"a"},{"const":"b"}]}}], "bool false"],
[[{"set":"p","to":{"=":[{"const":"1"},{"const":1}]}}], "E22"],
[[{"set":"p","to":{"if":[{"arg":1},{"const":1},{"prop":"loop"}]}}], "int 1"],
[[{"set":"p","to":{"if":[{"const":false},{"prop":"loop"},{"const":2}]}}], "int 2"],
[[{"set":"p","to":{"if":[{"prop":"loop"},{"arg":2},{"arg":2}]}}], "loop"],
[[{"set":"p","to":{"if":[{"const":1},{"prop":"loop"},{"prop":"loop"}]}}], "E22"],
[[{"set":"p","to":{"+":[{"prop":"loop"},{"prop":"y"}]}}], "loop"],
[[{"set":"p","to":{"+":[{"prop":"y"},{"prop":"loop"}]}}], "E11"],
[[{"set":"p","to":{"=":[{"const":true},{"prop":"y"}]}}], "E11"],
[[{"set":"p","to":{"cat":[{"const":1},{"prop":"x","of":3}]}}], "E04"],
[[{"set":"p","to":{"cat":[{"const":"aa"},{"const":"b"}]}}], "QString \"aab\""],
[[{"set":"p","to":{"cat":[{"const":"a"},{"const":1}]}}], "E22"]]"#;

/// Bindings, and what each ends with where there are no objects, or the code by which it is refused. The
/// last three are what a binding does not have.
const BINDINGS: &str = r#"[
[{"const":-9223372036854775808}, "qlonglong -9223372036854775808"],
[{"const":18446744073709551615}, "qulonglong 18446744073709551615"],
[{"prop":"x"}, "E04"],
[{"if":[{"const":true},{"const":1},{"+":[{"const":2},{"const":3}]}]}, "int 1"],
[null, "E22"],
[1, "E22"],
["x", "E22"],
[[], "E22"],
[{}, "E22"],
[{"const":null}, "E22"],
[{"const":1.0}, "E22"],
[{"const":1e0}, "E22"],
[{"const":-0}, "E22"],
[{"const":18446744073709551616}, "E22"],
[{"const":[1]}, "E22"],
[{"const":1,"of":"self"}, "E22"],
[{"const":1,"arg":0}, "E22"],
[{"prop":"1x"}, "E22"],
[{"prop":"x","of":null}, "E22"],
[{"prop":"x","of":0}, "E22"],
[{"prop":"x","of":4294967296}, "E22"],
[{"prop":"x","of":1.0}, "E22"],
[{"prop":"x","of":"me"}, "E22"],
[{"prop":"x","at":1}, "E22"],
[{"of":"self"}, "E22"],
[{"plus":[{"const":1},{"const":1}]}, "E22"],
[{"+":{"const":1}}, "E22"],
[{"+":[{"const":1}]}, "E22"],
[{"+":[{"const":1},{"const":1},{"const":1}]}, "E22"],
[{"if":[{"const":true},{"const":1}]}, "E22"],
[{"arg":0}, "E22"],
[{"state":true}, "E22"],
[{"prop":"x","of":"sender"}, "E22"],
[{"prop":"x","of":{"child":"c"}}, "E22"]]"#;

/// Writes how an evaluation ends: by a value with its kind, or by the code of a fault.
fn ending<O: Drop>(alloc: Global, end: Result<Value, Halt<O>>) -> Result<String, AllocError> {
    match end {
        Ok(value) => shown(alloc, &value),
        Err(Halt::Refused(code)) => String::from_str(alloc, code.text()),
        Err(Halt::Own(_)) => String::from_str(alloc, "loop"),
        Err(Halt::Memory) => Err(AllocError),
    }
}

/// Writes how the evaluation of the actions' first value ends.
fn value_of(alloc: Global, actions: &[Action], args: &[Value]) -> Result<String, AllocError> {
    match first_value(actions) {
        Some(expr) => ending(alloc, evaluate(alloc, expr, args, &Cell)),
        None => Err(AllocError),
    }
}

/// Whether evaluating the first value of actions ends as wanted.
fn ends_so(
    alloc: Global,
    actions: &[Action],
    args: &[Value],
    wanted: &str,
) -> Result<bool, AllocError> {
    let found = value_of(alloc, actions, args)?;
    Ok(found.as_str() == wanted)
}

/// Whether the first value of actions, where it can be had by reference, is the wanted one; otherwise true.
fn stands_so(
    alloc: Global,
    actions: &[Action],
    args: &[Value],
    wanted: &str,
) -> Result<bool, AllocError> {
    let Some(expr) = first_value(actions) else {
        return Ok(true);
    };
    let Some(value) = standing(expr, args) else {
        return Ok(true);
    };
    let found = shown(alloc, value)?;
    Ok(found.as_str() == wanted)
}

/// Whether evaluating the first value of a body ends as wanted once the arguments are put in.
fn ends_so_unfolded(
    alloc: Global,
    body: &Body,
    args: &[Value],
    wanted: &str,
) -> Result<bool, AllocError> {
    let unfolded = unfold(alloc, body, 0, args)?;
    ends_so(alloc, unfolded.as_slice(), &[], wanted)
}

fn is_valued(alloc: Global, body: &Body, wanted: &str) -> Result<bool, AllocError> {
    let args = [Value::Uint(5), Value::Bool(true)];
    Ok(
        ends_so(alloc, body.actions.as_slice(), &args, wanted)?
            && stands_so(alloc, body.actions.as_slice(), &args, wanted)?
            && ends_so_unfolded(alloc, body, &args, wanted)?,
    )
}

/// The cases of `VALUES`.
struct Values;

impl Cases for Values {
    fn text() -> &'static str {
        VALUES
    }

    fn is_as_wanted(alloc: Global, case: &Json) -> Result<bool, Fault> {
        let body = Body::from_json(alloc, part(case, 0), 3)?;
        Ok(is_valued(alloc, &body, word(case, 1))?)
    }
}

#[test]
fn expressions_have_their_values(rt: HostRuntime) -> Result<(), Fail> {
    assert_eq!(rt; first_wrong::<Values>(rt.alloc())?, (44, None));
    Ok(())
}

/// Whether 5 is put into the branch of a branch.
fn is_put_into_branches(alloc: Global, body: &Body) -> Result<bool, AllocError> {
    let args = [Value::Uint(5), Value::Bool(true)];
    let actions = unfold(alloc, body, 0, &args)?;
    ends_so(alloc, branch(branch(actions.as_slice())), &[], "uint 5")
}

/// The body that a text spells, of a slot that takes two arguments.
fn body_of(alloc: Global, text: &str) -> Result<Body, Fault> {
    match Json::from_str(alloc, text) {
        Ok(json) => Body::from_json(alloc, &json, 2),
        Err(_) => Err(Fault::Memory),
    }
}

fn branches(alloc: Global) -> Result<Body, Fault> {
    body_of(
        alloc,
        r#"[{"when":{"const":true},"then":[{"when":{"arg":1},"then":[{"emit":"f(uint)","args":[{"arg":0}]}]}]}]"#,
    )
}

#[test]
fn arguments_are_put_into_branches(rt: HostRuntime) -> Result<(), Fail> {
    let body = branches(rt.alloc())?;
    assert!(rt; is_put_into_branches(rt.alloc(), &body)?);
    Ok(())
}

/// Writes how a binding ends, or the code by which it is refused.
fn bound(alloc: Global, json: &Json) -> Result<String, AllocError> {
    match Expr::from_json(alloc, json) {
        Ok(expr) => ending(alloc, evaluate(alloc, &expr.copy(alloc)?, &[], &NoObjects)),
        Err(Fault::Refused(code)) => String::from_str(alloc, code.text()),
        Err(Fault::Memory) => Err(AllocError),
    }
}

fn is_bound(alloc: Global, json: &Json, wanted: &str) -> Result<bool, AllocError> {
    let found = bound(alloc, json)?;
    Ok(found.as_str() == wanted)
}

/// The cases of `BINDINGS`.
struct BindingForms;

impl Cases for BindingForms {
    fn text() -> &'static str {
        BINDINGS
    }

    fn is_as_wanted(alloc: Global, case: &Json) -> Result<bool, Fault> {
        Ok(is_bound(alloc, part(case, 0), word(case, 1))?)
    }
}

#[test]
fn bindings_have_their_forms(rt: HostRuntime) -> Result<(), Fail> {
    assert_eq!(rt; first_wrong::<BindingForms>(rt.alloc())?, (34, None));
    Ok(())
}

/// The JSON of so many sums around an expression: of 1 and the sum or expression within.
fn sums(alloc: Global, count: usize, inner: &str) -> Result<Json, AllocError> {
    let mut text = r#"{"+":[{"const":1},"#.repeat(alloc, count)?;
    text.push_str(inner)?;
    text.push_str(&"]}".repeat(alloc, count)?)?;
    Json::from_str(alloc, &text).map_err(|_| AllocError)
}

/// Each case has a number of nested sums, the innermost operand, and how their evaluation ends. In order: 64
/// forms, 65 forms, 65 with an invalid one, and as deep as the reader of JSON goes.
const SUMS: [(usize, &str, &str); 4] = [
    (
        30,
        r#"{"if":[{"const":true},{"const":7},{"const":0}]}"#,
        "int 37",
    ),
    (31, r#"{"+":[{"const":1},{"const":2}]}"#, "E14"),
    (31, r#"{"+":[{"const":1},{"const":null}]}"#, "E22"),
    (63, r#"{"const":1}"#, "E14"),
];

fn is_summed(alloc: Global, count: usize, inner: &str, wanted: &str) -> Result<bool, AllocError> {
    let json = sums(alloc, count, inner)?;
    is_bound(alloc, &json, wanted)
}

fn are_summed(alloc: Global, sums: &[(usize, &str, &str)]) -> Result<bool, AllocError> {
    for (count, inner, wanted) in sums {
        if !is_summed(alloc, *count, *inner, *wanted)? {
            return Ok(false);
        }
    }
    Ok(true)
}

fn all_are_summed(alloc: Global) -> Result<bool, AllocError> {
    are_summed(alloc, &SUMS)
}

#[test]
fn expressions_keep_to_their_limits(rt: HostRuntime) -> Result<(), Fail> {
    assert!(rt; all_are_summed(rt.alloc())?);
    Ok(())
}

/// The reads of an expression, as the names of its properties between spaces.
fn reads(alloc: Global, expr: &Expr) -> Result<String, AllocError> {
    let reads = reads_of(alloc, expr)?;
    let mut text = String::new(alloc);
    for read in reads.as_slice() {
        if matches!(&read.target, Target::Sender) {
            text.push_str("sender.")?;
        }
        text.push_str(read.name.as_str())?;
        text.push(' ')?;
    }
    Ok(text)
}

/// Whether the first value of a body has ten nodes, and reads this.
fn reads_so(alloc: Global, body: &Body, wanted: &str) -> Result<bool, AllocError> {
    let Some(expr) = first_value(body.actions.as_slice()) else {
        return Ok(false);
    };
    let found = reads(alloc, expr)?;
    Ok(expr.nodes() == 10 && found.as_str() == wanted)
}

fn reading_body(alloc: Global) -> Result<Body, Fault> {
    body_of(
        alloc,
        r#"[{"set":"p","to":{"if":[{"<":[{"prop":"x"},{"prop":"y","of":"sender"}]},
        {"+":[{"prop":"z","of":{"child":"c"}},{"+":[{"arg":0},{"prop":"x"}]}]},{"prop":"w","of":2}]}}]"#,
    )
}

#[test]
fn reads_are_named_in_preorder(rt: HostRuntime) -> Result<(), Fail> {
    let body = reading_body(rt.alloc())?;
    assert!(rt; reads_so(rt.alloc(), &body, "x sender.y z x w ")?);
    Ok(())
}
