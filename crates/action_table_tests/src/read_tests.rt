//! What tables are read as: names with the forms that they stand for, in the order of the text.

use action_table::*;
use ordered_json::read;
use std::alloc::{AllocError, Global};
use std::test::Fail;
use xs_model::{Expr, Target};

/// Guards, an action of each kind but `stopChild`, an action of three forms, and actors.
const MANY: &str =
    r#"{"guards":{"more":{"$lt":[{"$context":"n"},{"$context":"max"}]}},"actions":{"inc":{"assign":{"n":{"$add":[{"$context":"n"},1]}}},"batch":{"enqueueActions":[{"assign":{"n":5}},{"if":{"$eq":[{"$context":"n"},5]},"then":[{"assign":{"seen":true}}],"else":[{"assign":{"seen":false}}]}]},"boom":{"assign":{"x":{"$div":[1,0]}}},"mk":{"spawnChild":"idle","systemId":"desk"},"p":{"raise":{"type":"P"},"delay":100,"id":"p"},"q":{"raise":{"type":"Q"},"delay":100,"id":"q"},"r":{"raise":{"type":"R"},"delay":100,"id":"r"},"cr":{"cancel":"r"},"log":{"assign":{"log":{"$append":[{"$context":"log"},{"$event":"type"}]}}},"three":[{"sendTo":{"system":"a"},"event":{"type":"GO"}},{"sendTo":{"system":"b"},"event":{"type":"GO"}},{"sendTo":{"system":"c"},"event":{"type":"GO"}}]},"actors":{"mid":{"machine":"mid"},"low":{"machine":"low"},"idle":{"machine":"idle"},"sign":{"promise":{}}}}"#;

/// The implementations of purchases that somebody approves.
const PURCHASE: &str =
    r#"{"guards":{"granted":{"$event":"output.granted"}},"actions":{"keep":{"assign":{"granted":{"$event":"output.granted"}}},"remind":{"sendTo":{"system":"desk"},"event":{"type":"REMIND"}},"count":{"assign":{"count":{"$add":[{"$context":"count"},1]}}}},"actors":{"approval":{"machine":"approval"},"place":{"promise":{}},"sign":{"promise":{}}}}"#;

/// The actions of `MANY`, each with the words of its forms.
const MANY_ACTIONS: &str =
    "inc assign; batch enqueueActions; boom assign; mk spawnChild; p raise; q raise; r raise; cr cancel; log assign; three sendTo sendTo sendTo; ";

/// Each way to say to whom is sent.
const TARGETS: &str =
    r#"{"actions":{"a":[{"sendTo":"self","event":1},{"sendTo":"parent","event":1},{"event":1,"sendTo":{"child":"c"}},{"sendTo":{"system":"s"},"event":1,"id":"i"}]}}"#;

/// The table that a text without a fault means.
fn table(alloc: Global, text: &str) -> Result<Table, Fail> {
    Ok(read_table(alloc, &read(alloc, text.as_bytes())?)?)
}

/// The word of a form.
fn word(form: &UnlinkedForm) -> &'static str {
    match form {
        UnlinkedForm::Assign { .. } => "assign",
        UnlinkedForm::Raise { .. } => "raise",
        UnlinkedForm::SendTo { .. } => "sendTo",
        UnlinkedForm::Cancel { .. } => "cancel",
        UnlinkedForm::SpawnChild { .. } => "spawnChild",
        UnlinkedForm::StopChild { .. } => "stopChild",
        UnlinkedForm::EnqueueActions { .. } => "enqueueActions",
    }
}

/// Puts the words of forms behind a text.
fn put_forms(words: &mut String, forms: &[UnlinkedForm]) -> Result<(), AllocError> {
    for form in forms {
        words.push_str(" ")?;
        words.push_str(word(form))?;
    }
    words.push_str("; ")
}

/// Each action with the words of its forms.
fn action_words(alloc: Global, table: &Table) -> Result<String, AllocError> {
    let mut words = String::new(alloc);
    for place in 0..table.actions.len() {
        if let Some((name, forms)) = table.actions.at(place) {
            words.push_str(name)?;
            put_forms(&mut words, forms.as_slice())?;
        }
    }
    Ok(words)
}

/// The machine that an actor is, behind a space, or nothing for a work item.
fn machine_of(actor: &TableActor) -> (&str, &str) {
    match actor {
        TableActor::Machine(named) => (" ", named.name.as_str()),
        _ => ("", ""),
    }
}

/// Each actor with the machine that it is.
fn actor_words(alloc: Global, table: &Table) -> Result<String, AllocError> {
    let mut words = String::new(alloc);
    for place in 0..table.actors.len() {
        if let Some((name, actor)) = table.actors.at(place) {
            let (space, machine) = machine_of(actor);
            words.push_str(format!(in alloc; "{name}{space}{machine}; ")?.as_str())?;
        }
    }
    Ok(words)
}

/// Whether a text is read as these actions and actors.
fn has_names(alloc: Global, text: &str, actions: &str, actors: &str) -> Result<bool, Fail> {
    let read = table(alloc, text)?;
    let named = action_words(alloc, &read)?;
    Ok(named.as_str() == actions && actor_words(alloc, &read)?.as_str() == actors)
}

/// The first form of an action.
fn form_of<'a>(table: &'a Table, name: &[u8]) -> Option<&'a UnlinkedForm> {
    match table.actions.get(name) {
        Some(forms) => forms.get(0),
        None => None,
    }
}

/// To whom a form sends, in a word.
fn target_word(form: &UnlinkedForm) -> &'static str {
    match form {
        UnlinkedForm::SendTo { target, .. } => match target {
            Target::Own => "self",
            Target::Parent => "parent",
            Target::Child(_) => "child",
            Target::System(_) => "system",
        },
        _ => "none",
    }
}

/// How many items both branches of the first choice have.
fn branches(items: &[UnlinkedItem]) -> Option<(usize, usize)> {
    for item in items {
        if let UnlinkedItem::If {
            then,
            otherwise,
            ..
        } = item
        {
            return Some((then.len(), otherwise.len()));
        }
    }
    None
}

/// Where the source stands that an action spawns.
fn spawned(table: &Table, name: &[u8]) -> Option<usize> {
    match form_of(table, name) {
        Some(UnlinkedForm::SpawnChild { src, .. }) => Some(src.place),
        _ => None,
    }
}

/// How many items both branches of an action's first choice have.
fn chosen(table: &Table, name: &[u8]) -> Option<(usize, usize)> {
    match form_of(table, name) {
        Some(UnlinkedForm::EnqueueActions { items }) => branches(items.as_slice()),
        _ => None,
    }
}

/// How long an action waits.
fn delay(table: &Table, name: &[u8]) -> Option<i64> {
    match form_of(table, name) {
        Some(
            UnlinkedForm::Raise {
                delay: Some(Expr::Int(delay)),
                ..
            },
        ) => Some(*delay),
        _ => None,
    }
}

/// To whom the forms of an action send.
fn target_words(alloc: Global, table: &Table, name: &[u8]) -> Result<String, AllocError> {
    let mut words = String::new(alloc);
    if let Some(forms) = table.actions.get(name) {
        for form in forms.as_slice() {
            words.push_str(target_word(form))?;
            words.push_str(" ")?;
        }
    }
    Ok(words)
}

#[test]
fn reads_names_in_order(rt: HostRuntime) -> Result<(), Fail> {
    let actors = "mid mid; low low; idle idle; sign; ";
    assert!(rt; has_names(rt.alloc(), MANY, MANY_ACTIONS, actors)?);
    Ok(())
}

#[test]
fn reads_the_names_of_purchases(rt: HostRuntime) -> Result<(), Fail> {
    let actions = "keep assign; remind sendTo; count assign; ";
    let actors = "approval approval; place; sign; ";
    assert!(rt; has_names(rt.alloc(), PURCHASE, actions, actors)?);
    Ok(())
}

#[test]
fn reads_guards_and_delays(rt: HostRuntime) -> Result<(), Fail> {
    let many = table(rt.alloc(), MANY)?;
    assert!(rt; many.guards.len() == 1 && many.delays.len() == 0);
    Ok(())
}

#[test]
fn reads_parts(rt: HostRuntime) -> Result<(), Fail> {
    let many = table(rt.alloc(), MANY)?;
    let spawned = spawned(&many, b"mk".as_slice()) == Some(340);
    let chosen = chosen(&many, b"batch".as_slice()) == Some((1, 1));
    assert!(rt; spawned && chosen && delay(&many, b"q".as_slice()) == Some(100));
    Ok(())
}

#[test]
fn reads_targets(rt: HostRuntime) -> Result<(), Fail> {
    let read = table(rt.alloc(), TARGETS)?;
    let words = target_words(rt.alloc(), &read, b"a".as_slice())?;
    assert!(rt; words.as_str() == "self parent child system ");
    Ok(())
}

#[test]
fn refuses_at_the_least_place(rt: HostRuntime) -> Result<(), Fail> {
    let text = r#"{"actions":{"a":{"raise":1,"event":1}},"x":{}}"#;
    let fault = read_table(rt.alloc(), &read(rt.alloc(), text.as_bytes())?).err();
    assert!(rt; fault == Some(TableFault::UnknownForm(27)));
    Ok(())
}
