//! Outcomes as texts: the active leaves by their ids, the context, the children and the effects
//! where there are any, the types of the events that were read, and the end where the actor isn't
//! active.

use node_tree::Tree;
use office_types::{Effect, End, Outcome, Own, Texts, To, write_value};
use std::alloc::Global;
use std::str;
use std::test::Fail;
use xs_model::Value;

/// Longer lists of types are told by their length.
pub(super) const MOST_TYPES: usize = 20;

/// An outcome as a text.
pub(super) fn outcome_text(alloc: Global, tree: &Tree, outcome: &Outcome) -> Result<String, Fail> {
    let mut text = String::new(alloc);
    put_own(alloc, &mut text, tree, &outcome.own)?;
    put_types(alloc, &mut text, &outcome.micros)?;
    put_effects(alloc, &mut text, outcome)?;
    put_end(alloc, &mut text, &outcome.end)?;
    Ok(text)
}

/// The active leaves, the context, and the children where there are any.
fn put_own(alloc: Global, text: &mut String, tree: &Tree, own: &Own) -> Result<(), Fail> {
    put_leaves(text, tree, own.nodes.as_slice())?;
    put_value(alloc, text, &own.context)?;
    if own.children.is_empty() {
        return Ok(());
    }
    text.push_str(" children ")?;
    put_texts(text, &own.children)
}

/// The types of the events that were read, or how many they are.
fn put_types(alloc: Global, text: &mut String, types: &Texts) -> Result<(), Fail> {
    text.push_str(" [")?;
    if types.len() <= MOST_TYPES {
        put_texts(text, types)?;
    } else {
        put_count(alloc, text, types.len())?;
    }
    text.push_str("]")?;
    Ok(())
}

fn put_count(alloc: Global, text: &mut String, count: usize) -> Result<(), Fail> {
    let count = format!(in alloc; "{count}")?;
    text.push_str(count.as_str())?;
    Ok(())
}

fn put_effects(alloc: Global, text: &mut String, outcome: &Outcome) -> Result<(), Fail> {
    for effect in outcome.effects.as_slice() {
        put_effect(alloc, text, effect)?;
    }
    Ok(())
}

/// The end where the actor isn't active.
fn put_end(alloc: Global, text: &mut String, end: &End) -> Result<(), Fail> {
    match end {
        End::Active => Ok(()),
        End::Done(output) => put_told(alloc, text, " done", output),
        End::Error(error) => put_told(alloc, text, " error", error),
    }
}

fn put_told(alloc: Global, text: &mut String, word: &str, value: &Value) -> Result<(), Fail> {
    text.push_str(word)?;
    put_value(alloc, text, value)
}

/// The ids of the leaves among these nodes, or a dash where there is none.
fn put_leaves(text: &mut String, tree: &Tree, nodes: &[u32]) -> Result<(), Fail> {
    for node in nodes {
        if *node < tree.len() && tree.node(*node).kind.is_leaf() {
            text.push_str(if text.is_empty() { "" } else { "," })?;
            text.push_str(tree.node(*node).id.as_str())?;
        }
    }
    text.push_str(if text.is_empty() { "-" } else { "" })?;
    Ok(())
}

/// Texts with commas between them.
fn put_texts(text: &mut String, texts: &Texts) -> Result<(), Fail> {
    for (place, one) in texts.as_slice().iter().enumerate() {
        if place > 0 {
            text.push_str(",")?;
        }
        text.push_str(one.as_str())?;
    }
    Ok(())
}

/// A space and a value as compact text.
fn put_value(alloc: Global, text: &mut String, value: &Value) -> Result<(), Fail> {
    let bytes = write_value(alloc, value)?;
    text.push_str(" ")?;
    text.push_str(str::from_utf8(bytes.as_slice())?)?;
    Ok(())
}

/// A space and a word.
fn put_word(text: &mut String, word: &str) -> Result<(), Fail> {
    text.push_str(" ")?;
    text.push_str(word)?;
    Ok(())
}

/// Two words.
fn put_words(text: &mut String, first: &str, second: &str) -> Result<(), Fail> {
    put_word(text, first)?;
    put_word(text, second)
}

/// A space and a number.
fn put_number(alloc: Global, text: &mut String, number: u64) -> Result<(), Fail> {
    let number = format!(in alloc; "{number}")?;
    put_word(text, number.as_str())
}

/// What an effect asks for: a word and its parts, where a dash stands for an id or a name that
/// isn't there.
fn put_effect(alloc: Global, text: &mut String, effect: &Effect) -> Result<(), Fail> {
    match effect {
        Effect::Send { to, event } => {
            put_word(text, "send")?;
            put_addressed(alloc, text, to, event)
        }
        Effect::Schedule {
            id,
            delay,
            to,
            event,
        } => {
            let id = match id {
                Some(id) => id.as_str(),
                None => "-",
            };
            put_timer(alloc, text, id, *delay)?;
            put_addressed(alloc, text, to, event)
        }
        Effect::Cancel { id } => put_words(text, "cancel", id.as_str()),
        Effect::Spawn {
            id,
            src,
            input,
            system,
        } => {
            let system = match system {
                Some(name) => name.as_str(),
                None => "-",
            };
            put_child(alloc, text, id.as_str(), u64::from(*src))?;
            put_value(alloc, text, input)?;
            put_word(text, system)
        }
        Effect::Stop { id } => put_words(text, "stop", id.as_str()),
    }
}

fn put_timer(alloc: Global, text: &mut String, id: &str, delay: u64) -> Result<(), Fail> {
    put_words(text, "schedule", id)?;
    put_number(alloc, text, delay)
}

fn put_child(alloc: Global, text: &mut String, id: &str, src: u64) -> Result<(), Fail> {
    put_words(text, "spawn", id)?;
    put_number(alloc, text, src)
}

/// To whom an event is sent, and the event.
fn put_addressed(alloc: Global, text: &mut String, to: &To, event: &Value) -> Result<(), Fail> {
    put_target(text, to)?;
    put_value(alloc, text, event)
}

/// To whom an event is sent.
fn put_target(text: &mut String, to: &To) -> Result<(), Fail> {
    match to {
        To::Own => put_word(text, "self"),
        To::Parent => put_word(text, "parent"),
        To::Child(id) => put_words(text, "child", id.as_str()),
        To::System(name) => put_words(text, "system", name.as_str()),
    }
}
