//! Texts that are refused out of their outer shape and after it, as lines with `^` before the byte at
//! which the fault stands.

use action_table::*;
use std::alloc::Global;
use std::process::Abort;
use std::test::Fail;

/// Texts out of their outer shape.
const SHAPES: &str = r#"^[]
^null
 ^5
^"x"
^{}
^{"machines":[]}
^{"implementations":{}}
^{"machine":[],"implementations":{}}
^{"Machines":[],"implementations":{}}
^{"machines":[]," implementations":{}}
{"machines":[],"implementations":{},^"x":1}
{^"x":1,"machines":[],"implementations":{}}
{"machines":^{},"implementations":{}}
{"machines":^null,"implementations":{}}
{"machines":^"m","implementations":{}}
{"machines":[^1],"implementations":{}}
{"machines":[{},^2],"implementations":{}}
{"machines":[^[]],"implementations":{}}
{"machines":[^null,{}],"implementations":{}}
{"machines":[],"implementations":^[]}
{"machines":[],"implementations":^null}
{"machines":[],"implementations":^5}
{"implementations":^[],"machines":{}}
{"implementations":{},"machines":^{}}
{"implementations":{},"machines":[^7]}
{"implementations":{},^"y":{},"machines":[]}
{"machines":[^5],"implementations":6,"z":0}
{"machines":[],"implementations":^6,"z":0}
{^"z":0,"machines":5,"implementations":6}
 {"machines":[],"implementations":^1}
^[{"machines":[],"implementations":{}}]"#;

/// Texts that are refused after their outer shape, each behind the part that refuses it and the name of
/// the fault.
const FAULTS: &str =
    r#"Machine UnknownField {"machines":[{"id":"x",^"inital":"a"}],"implementations":{}}
Machine UnknownField {"implementations":{"x":{}},"machines":[{^"inital":"a"}]}
Table UnknownForm {"machines":[{"inital":1}],"implementations":^5}
Table UnknownForm {"machines":[{"id":"x","entry":"e"}],"implementations":{^"guard":{}}}
Table Twice {"machines":[{"id":"a"},^{"id":"a"}],"implementations":{}}
Table Twice {"machines":[{"id":"a","entry":"x"},^{"id":"a"}],"implementations":{}}
Table Unnamed {"machines":[{"id":"x","on":{"A":{"guard":^"g"}}}],"implementations":{}}
Table Unnamed {"machines":[{"id":"x","always":{"guard":{"not":^"g"}}}],"implementations":{}}
Table Unnamed {"machines":[{"id":"x","entry":^"e"}],"implementations":{}}
Table Unnamed {"machines":[{"id":"x","after":{^"d":{}}}],"implementations":{}}
Table Unnamed {"machines":[{"id":"x","invoke":{"src":^"s"}}],"implementations":{}}
Table Unnamed {"machines":[],"implementations":{"actors":{"a":{"machine":^"m"}}}}
Table Unnamed {"machines":[],"implementations":{"actions":{"a":{"spawnChild":^"s"}}}}
Table Unnamed {"implementations":{"actors":{"a":{"machine":^"m"}}},"machines":[{"entry":"e"}]}
Table Unnamed {"machines":[{"entry":^"e"}],"implementations":{"guards":{"e":true}}}"#;

/// Whether a marked text is refused at its mark, by this part with a fault of this name.
fn is_refused(alloc: Global, part: &str, fault: &str, marked: &str) -> Result<bool, Fail> {
    let (before, behind) = marked.split_once('^').unwrap_or((marked, ""));
    let text = format!(in alloc; "{before}{behind}")?;
    let found = format!(in alloc; "{:?}", read_defs(alloc, text.as_bytes()).err())?;
    let wanted = format!(in alloc; "Some({part}({fault}({})))", before.len())?;
    Ok(found.as_str() == wanted.as_str())
}

#[test]
fn refuses_other_shapes(rt: HostRuntime) -> Result<(), Fail> {
    for marked in SHAPES.lines() {
        assert!(rt;
            is_refused(rt.alloc(), "Table", "UnknownForm", marked)?,
            "{marked}"
        );
    }
    Ok(())
}

#[test]
fn refuses_machines_tables_and_names(rt: HostRuntime) -> Result<(), Fail> {
    for line in FAULTS.lines() {
        let (part, named) = line.split_once(' ').unwrap_or((line, ""));
        let (fault, marked) = named.split_once(' ').unwrap_or((named, ""));
        assert!(rt; is_refused(rt.alloc(), part, fault, marked)?, "{line}");
    }
    Ok(())
}

#[test]
fn answers_a_fault_of_the_json_first(rt: HostRuntime) -> Result<(), Fail> {
    assert!(rt; is_refused(rt.alloc(), "Json", "Syntax", r#"{"machines":[^"#)?);
    Ok(())
}
