//! Copies, with ample memory.

use office_types::{
    ActorRecord, Effect, Item, Letter, Origin, Own, Status, Timer, To, copy_effect, copy_record,
    copy_timer,
};
use std::alloc::{AllocError, Global};
use xs_data::{Items, Text};
use xs_model::Value;

fn text(alloc: Global, text: &str) -> Result<Text, AllocError> {
    Text::from_str(alloc, text)
}

fn own(alloc: Global) -> Result<Own, AllocError> {
    Ok(Own {
        def: 2,
        begun: true,
        nodes: Items::from_vec(vec![in alloc; 0, 1]?),
        history: Items::from_vec(vec![in alloc; (4, Items::from_vec(vec![in alloc; 1]?))]?),
        context: Value::Null,
        children: Items::from_vec(vec![in alloc; text(alloc, "c")?]?),
        unnamed: 5,
    })
}

fn item(alloc: Global) -> Result<Item, AllocError> {
    Ok(Item {
        actor: 3,
        src: text(alloc, "job")?,
        input: Value::Null,
    })
}

fn letter(alloc: Global) -> Result<Letter, AllocError> {
    Ok(Letter {
        number: 7,
        origin: Origin::Caller(text(alloc, "ann")?),
        event: Value::Int(1),
    })
}

fn record(alloc: Global) -> Result<ActorRecord, AllocError> {
    Ok(ActorRecord {
        number: 3,
        parent: Some(1),
        own: Some(own(alloc)?),
        item: Some(item(alloc)?),
        system: Some(text(alloc, "desk")?),
        status: Status::Active,
        output: Value::Null,
        error: Value::Null,
        kids: Items::from_vec(vec![in alloc; (text(alloc, "c")?, 4)]?),
        mailbox: Items::from_vec(vec![in alloc; letter(alloc)?]?),
    })
}

fn effect(alloc: Global) -> Result<Effect, AllocError> {
    Ok(Effect::Schedule {
        id: Some(text(alloc, "t")?),
        delay: 9,
        to: To::System(text(alloc, "desk")?),
        event: Value::Int(2),
    })
}

fn timer(alloc: Global) -> Result<Timer, AllocError> {
    Ok(Timer {
        order: 1,
        owner: 2,
        target: 3,
        due: 4,
        id: Some(text(alloc, "t")?),
        event: Value::Null,
    })
}

fn record_text(alloc: Global, record: &ActorRecord) -> Option<String> {
    format!(in alloc; "{record:?}").ok()
}

fn effect_text(alloc: Global, effect: &Effect) -> Option<String> {
    format!(in alloc; "{effect:?}").ok()
}

// Whether both texts are there, and are the same.
fn are_same(text: Option<String>, other: Option<String>) -> bool {
    match (text, other) {
        (Some(text), Some(other)) => text.as_str() == other.as_str(),
        _ => false,
    }
}

fn is_record_copied(alloc: Global, record: &ActorRecord) -> bool {
    let copy = copy_record(alloc, record);
    match &copy {
        Ok(other) => are_same(record_text(alloc, other), record_text(alloc, record)),
        Err(_) => false,
    }
}

fn is_effect_copied(alloc: Global, effect: &Effect) -> bool {
    let copy = copy_effect(alloc, effect);
    match &copy {
        Ok(other) => are_same(effect_text(alloc, other), effect_text(alloc, effect)),
        Err(_) => false,
    }
}

fn a_record_is_copied(alloc: Global) -> bool {
    let record = record(alloc);
    match &record {
        Ok(record) => is_record_copied(alloc, record),
        Err(_) => false,
    }
}

fn an_effect_is_copied(alloc: Global) -> bool {
    let effect = effect(alloc);
    match &effect {
        Ok(effect) => is_effect_copied(alloc, effect),
        Err(_) => false,
    }
}

fn a_timer_is_copied(alloc: Global) -> bool {
    let timer = timer(alloc);
    match &timer {
        Ok(timer) => copy_timer(alloc, timer).is_ok(),
        Err(_) => false,
    }
}

#[test]
fn records_are_copied_with_ample_memory(rt: HostRuntime) {
    assert!(rt; a_record_is_copied(rt.alloc()));
}

#[test]
fn effects_are_copied_with_ample_memory(rt: HostRuntime) {
    assert!(rt; an_effect_is_copied(rt.alloc()));
}

#[test]
fn timers_are_copied_with_ample_memory(rt: HostRuntime) {
    assert!(rt; a_timer_is_copied(rt.alloc()));
}
