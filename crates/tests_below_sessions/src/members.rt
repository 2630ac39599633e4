//! Which texts are read without a tree.
use json::Scratch;
use json_reading::{Stop, scan_members, token_members};
use std::alloc::Global;
use std::test::Fail;

/// A text, with the outcomes of scanning it and of reading its tokens.
type Served = (&'static str, &'static str, &'static str);

const TEXTS: [Served; 43] = [
    (r#"{"a":1}"#, "read", "read"),
    (
        r#"{"a":0,"b":"","c":null,"d":true,"e":false}"#,
        "read",
        "read",
    ),
    (r#"{"":"é","a":18446744073709551615}"#, "read", "read"),
    (r#"{"a":1,"a":2}"#, "read", "read"),
    (r#"{}"#, "form", "read"),
    (r#"{ "a" : 1 }"#, "form", "read"),
    (r#"{"a":"\n"}"#, "form", "read"),
    (r#"{"\u0061":1}"#, "form", "read"),
    (r#"{"a":18446744073709551616}"#, "form", "form"),
    (r#"{"a":01}"#, "form", "no JSON"),
    (r#"{"a":-1,"b":[-20]}"#, "read", "read"),
    (r#"{"a": -9223372036854775807}"#, "form", "read"),
    (r#"{"a":-9223372036854775808}"#, "form", "form"),
    (r#"{"a":-0}"#, "form", "form"),
    (r#"{"a":1.5}"#, "form", "read"),
    (r#"{"a":1e2}"#, "form", "read"),
    (r#"{"a":-1.5,"b":[-1e2]}"#, "read", "read"),
    (r#"{"a":1e999}"#, "form", "form"),
    (r#"{"a":-1e999}"#, "form", "form"),
    (r#"{"a":[],"b":[1,"x",null,true,false]}"#, "read", "read"),
    (r#"{"a":[ 1 , "\u00e9" ]}"#, "form", "read"),
    (r#"{"a":[1,]}"#, "form", "no JSON"),
    (r#"{"a":[,1]}"#, "form", "no JSON"),
    (r#"{"a":[1 2]}"#, "form", "no JSON"),
    (r#"{"a":[1}"#, "form", "no JSON"),
    (r#"{"a":[1]]}"#, "form", "no JSON"),
    (r#"{"a":{}}"#, "nested", "read"),
    (r#"{"a":{"b":[{"c":[1,{}]}]},"d":1}"#, "nested", "read"),
    (r#"{"a":{"b":1.5}}"#, "nested", "read"),
    (r#"{"a":{"b":1e999}}"#, "nested", "form"),
    (r#"{"a":{"b":}}"#, "nested", "no JSON"),
    (r#"{"a":[[]]}"#, "nested", "nested"),
    (r#"{"a":[{}]}"#, "nested", "nested"),
    (r#"{"a":1,}"#, "form", "no JSON"),
    (r#"{,"a":1}"#, "form", "no JSON"),
    (r#"{"a":1}}"#, "form", "no JSON"),
    (r#"{"a":1} 1"#, "form", "no JSON"),
    (r#"{"a":1"#, "form", "no JSON"),
    (r#"{"a"}"#, "form", "no JSON"),
    (r#"{"a":tru}"#, "form", "no JSON"),
    (r#"{"a":truer}"#, "form", "no JSON"),
    (r#"[1]"#, "form", "form"),
    ("", "form", "no JSON"),
];

fn outcome<T>(read: &Result<T, Stop>) -> &'static str {
    match read {
        Ok(_) => "read",
        Err(Stop::Form) => "form",
        Err(Stop::Nested) => "nested",
        Err(Stop::NotJson) => "no JSON",
        Err(Stop::Memory) => "memory",
    }
}

fn scanned(alloc: Global, text: &str) -> &'static str {
    outcome(&scan_members(alloc, text))
}

fn by_tokens(alloc: Global, text: &str) -> &'static str {
    let mut scratch = Scratch::new(alloc);
    outcome(&token_members(alloc, text, &mut scratch))
}

/// The first text for which scanning or reading tokens has another outcome than is listed.
fn first_wrong(alloc: Global, texts: &[Served]) -> Option<&'static str> {
    for (text, scans, reads) in texts {
        if scanned(alloc, *text) != *scans || by_tokens(alloc, *text) != *reads {
            return Some(*text);
        }
    }
    None
}

fn first_wrong_text(alloc: Global) -> Option<&'static str> {
    first_wrong(alloc, &TEXTS)
}

#[test]
fn texts_are_served(rt: HostRuntime) -> Result<(), Fail> {
    assert_eq!(rt; first_wrong_text(rt.alloc()), None);
    Ok(())
}
