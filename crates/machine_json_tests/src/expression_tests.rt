//! Expressions as marked lines: those in no form, and each form.

use crate::marked::{Reader, expect_answers};
use std::process::Abort;
use std::test::Fail;

/// Unknown forms, answered at the object.
const AT_OBJECT: &str = r#"^{"$no":1}
^{"$":1}
^{"$add":1,"$sub":2}
^{"a":1,"$lit":2}
^{"$lit":1,"a":2}
^{"$Add":[1,2]}
^{"$context ":"x"}
^{"$context":5}
^{"$context":null}
^{"$event":["a"]}
^{"$params":{}}
^{"$input":true}
^{"$or_else":[1]}
^{"$or_else":[1,2,3]}
^{"$or_else":{}}
^{"$add":[]}
^{"$add":[1]}
^{"$add":[1,2,3]}
^{"$add":{"a":1}}
^{"$add":"x"}
^{"$sub":1}
^{"$mul":[1]}
^{"$div":[1,2,3]}
^{"$rem":null}
^{"$concat":["a"]}
^{"$append":[[]]}
^{"$eq":[1]}
^{"$lt":[1]}
^{"$le":[1,2,3]}
^{"$and":[true]}
^{"$or":[true]}
^{"$or":false}
^{"$if":[true,1]}
^{"$if":[true,1,2,3]}
^{"$if":1}"#;

/// Unknown forms within others, answered at the object: the first of several.
const AT_INNER_OBJECT: &str = r#"{"$text":^{"$no":1}}
{"$len":^{"$no":1}}
{"$not":^{"$no":1}}
{"$add":[^{"$a":1},{"$b":1}]}
{"$add":[1,^{"$b":1}]}
{"$if":[1,2,^{"$b":1}]}
{"$if":[1,^{"$b":1},{"$c":1}]}
[1,^{"$no":1}]
[[^{"$no":1}],{"$no":2}]
{"a":^{"$no":1},"b":{"$no":2}}
{"a":{"b":[1,{"c":^{"$no":1}}]}}
{"$or_else":[1,{"x":^{"$if":[]}}]}
^{"$no":{"$no":1}}
^{"$add":[{"$no":1}]}
^{"a":{"$no":1},"$lit":1}
{"a":1,"b":{"$and":[^{"$x":1},{"$y":1}]}}"#;

/// Unknown forms, answered at the first key that begins with `$`.
const AT_OPERATOR: &str = r#"{^"$no":1}
{"a":1,^"$lit":2}
{^"$lit":1,"a":2}
{"a":1,"b":2,^"$add":1,"$sub":2}
{^"$add":[1]}
{"$not":{^"$no":1}}
[1,{"x":{^"$if":1}}]
{"a":{^"$x":1},"b":{"$y":1}}"#;

/// Each form.
const TAKEN: &str = r#"null
true
-7
"$context"
""
[]
{}
[[],{}]
{"a":{"b":1}}
{"":1}
{"a$":1}
{"$context":""}
{"$event":"a.b"}
{"$params":"x"}
{"$input":"y"}
{"$or_else":[1,2]}
{"$add":[1,2]}
{"$sub":[1,2]}
{"$mul":[1,2]}
{"$div":[1,2]}
{"$rem":[1,2]}
{"$concat":["a","b"]}
{"$text":1}
{"$text":[1,2]}
{"$append":[[],1]}
{"$len":[]}
{"$eq":[1,1]}
{"$lt":[1,2]}
{"$le":[1,2]}
{"$and":[1,2]}
{"$or":[1,2]}
{"$not":[1]}
{"$if":[1,2,3]}
{"$lit":{"$no":1}}
{"$lit":{"$lit":1,"a":2}}
{"$lit":null}
{"$add":[{"$context":"n"},{"$if":[true,{"$len":"x"},0]}]}"#;

#[test]
fn answers_at_the_object(rt: HostRuntime) -> Result<(), Fail> {
    expect_answers(&rt, rt.alloc(), Reader::Expression, "BadKind", AT_OBJECT)
}

#[test]
fn answers_at_the_first_object(rt: HostRuntime) -> Result<(), Fail> {
    expect_answers(
        &rt,
        rt.alloc(),
        Reader::Expression,
        "BadKind",
        AT_INNER_OBJECT,
    )
}

#[test]
fn answers_at_the_operator(rt: HostRuntime) -> Result<(), Fail> {
    expect_answers(&rt, rt.alloc(), Reader::Form, "Unknown", AT_OPERATOR)
}

#[test]
fn takes_each_form(rt: HostRuntime) -> Result<(), Fail> {
    expect_answers(&rt, rt.alloc(), Reader::Expression, "", TAKEN)
}
