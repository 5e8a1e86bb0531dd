//! Base texts: a whole office, and the text of its definitions.

ghost use Rattle.std.specs.Prelude.{◌≡◌, ◌++◌, IfOk, IsUtf8, OnOk, codes, map};
ghost use Rattle.office_types.specs.ValidOffice.{IsValidOffice};
ghost use Rattle.action_table.specs.Definitions.{office_definitions};
ghost use Rattle.snapshot_text.specs.BaseText.{base_text, caller_data, reply_data, reply_word, timer_data, top_actors};
ghost use Rattle.snapshot_text.specs.Snapshots.{nested_snapshot};
ghost use Rattle.snapshot_text.specs.Tokens.{data_tokens, keyed_data_tokens, top_tokens};
ghost use Rattle.snapshot_text.specs.ValueData.{list_data};

use crate::members::{put_name, put_number, put_text, put_under};
use crate::snapshot::put_snapshot;
use action_table::Defs;
use json::Writer;
use office_types::{ActorRecord, Bytes, Caller, MAX_TREE_LEVELS, OfficeState, Reply, Timer, Word};
use std::alloc::{AllocError, Global};
use std::str;

/// The base text of an office: all that it has, and the text of its definitions. It is written in one
/// pass; the records of children are found by halves.
pub fn write_office(
    alloc: Global,
    defs: &Defs,
    state: &OfficeState,
    text: &[u8],
) -> Result<Bytes, AllocError>
    requires valid { IsValidOffice (office_definitions defs.now) state.now }
    requires utf8 { IsUtf8 text.now }
    ensures { IfOk result
        (λ base. base ≡ base_text (office_definitions defs.now) state.now text.now) }
{
    let mut writer = Writer::new(Vec::new(alloc));
    writer.begin_object()?;
    put_top_actors(&mut writer, alloc, defs, state)?;
    put_callers(&mut writer, state.callers.as_slice())?;
    put_text(&mut writer, "defs", as_text(text))?;
    put_number(&mut writer, "entries", state.entries)?;
    put_number(&mut writer, "moment", state.moment)?;
    put_number(&mut writer, "nextActor", state.next_actor)?;
    put_number(&mut writer, "nextLetter", state.next_letter)?;
    put_number(&mut writer, "nextTimer", state.next_timer)?;
    put_timers(&mut writer, state.timers.as_slice())?;
    writer.end_object()?;
    Ok(Bytes::from_vec(writer.into_inner()))
}

/// The text that bytes in UTF-8 are.
fn as_text(bytes: &[u8]) -> &str
    requires { IsUtf8 bytes.now }
    ensures { result.now ≡ bytes.now }
{
    match str::from_utf8(bytes) {
        Ok(text) => text,
        Err(_) => unreachable!(),
    }
}

/// Writes the snapshots of the actors without a parent.
fn put_top_actors(
    writer: &mut Writer,
    alloc: Global,
    defs: &Defs,
    state: &OfficeState,
) -> Result<(), AllocError>
    requires { IsValidOffice (office_definitions defs.now) state.now }
    ensures before { writer.new.before ≡ writer.old.before }
    ensures tokens { OnOk result (writer.new.tokens ≡ writer.old.tokens ++ keyed_data_tokens (
      codes "actors",
      list_data (map
          (nested_snapshot (office_definitions defs.now) state.now) (top_actors state.now)),
    )) }
{
    writer.key("actors")?;
    writer.begin_array()?;
    for actor in state.actors.as_slice() {
        put_if_top(writer, alloc, defs, state, actor)?;
    }
    writer.end_array()
}

/// Writes the snapshot of an actor that has no parent, and nothing of any other.
fn put_if_top(
    writer: &mut Writer,
    alloc: Global,
    defs: &Defs,
    state: &OfficeState,
    actor: &ActorRecord,
) -> Result<(), AllocError>
    requires { IsValidOffice (office_definitions defs.now) state.now }
    ensures before { writer.new.before ≡ writer.old.before }
    ensures tokens { OnOk result (writer.new.tokens ≡ writer.old.tokens
        ++ top_tokens (nested_snapshot (office_definitions defs.now) state.now) actor.now) }
{
    if actor.parent.is_some() {
        return Ok(());
    }
    put_snapshot(writer, alloc, defs, state, MAX_TREE_LEVELS, actor.number)
}

fn put_callers(writer: &mut Writer, callers: &[Caller]) -> Result<(), AllocError>
    ensures before { writer.new.before ≡ writer.old.before }
    ensures tokens { OnOk result (writer.new.tokens ≡ writer.old.tokens
        ++ keyed_data_tokens (codes "callers", list_data (map caller_data callers.now))) }
{
    writer.key("callers")?;
    writer.begin_array()?;
    for caller in callers {
        put_caller(writer, caller)?;
    }
    writer.end_array()
}

fn put_caller(writer: &mut Writer, caller: &Caller) -> Result<(), AllocError>
    ensures before { writer.new.before ≡ writer.old.before }
    ensures tokens { OnOk result
        (writer.new.tokens ≡ writer.old.tokens ++ data_tokens (caller_data caller.now)) }
{
    writer.begin_object()?;
    put_text(writer, "name", caller.name.as_str())?;
    put_replies(writer, caller.replies.as_slice())?;
    writer.end_object()
}

fn put_replies(writer: &mut Writer, replies: &[Reply]) -> Result<(), AllocError>
    ensures before { writer.new.before ≡ writer.old.before }
    ensures tokens { OnOk result (writer.new.tokens ≡ writer.old.tokens
        ++ keyed_data_tokens (codes "replies", list_data (map reply_data replies.now))) }
{
    writer.key("replies")?;
    writer.begin_array()?;
    for reply in replies {
        put_reply(writer, *reply)?;
    }
    writer.end_array()
}

fn put_reply(writer: &mut Writer, reply: Reply) -> Result<(), AllocError>
    ensures before { writer.new.before ≡ writer.old.before }
    ensures tokens { OnOk result
        (writer.new.tokens ≡ writer.old.tokens ++ data_tokens (reply_data reply)) }
{
    writer.begin_array()?;
    writer.u64(u64::from(reply.status))?;
    writer.string(reply_word(reply.word))?;
    writer.u64(reply.value)?;
    writer.end_array()
}

fn reply_word(word: Word) -> &'static str
    ensures { result.now ≡ reply_word word }
{
    match word {
        Word::Actor => "actor",
        Word::Letter => "letter",
        Word::Item => "item",
        Word::Due => "due",
        Word::Machine => "machine",
        Word::Stopped => "stopped",
        Word::Reserved => "reserved",
        Word::Closed => "closed",
        Word::Moment => "moment",
        Word::Name => "name",
        Word::Actors => "actors",
        Word::Letters => "letters",
        Word::Gap => "gap",
        Word::Callers => "callers",
        Word::Replies => "replies",
        Word::Entries => "entries",
        Word::Disk => "disk",
        Word::Journal => "journal",
        Word::Memory => "memory",
    }
}

fn put_timers(writer: &mut Writer, timers: &[Timer]) -> Result<(), AllocError>
    ensures before { writer.new.before ≡ writer.old.before }
    ensures tokens { OnOk result (writer.new.tokens ≡ writer.old.tokens
        ++ keyed_data_tokens (codes "timers", list_data (map timer_data timers.now))) }
{
    writer.key("timers")?;
    writer.begin_array()?;
    for timer in timers {
        put_timer(writer, timer)?;
    }
    writer.end_array()
}

fn put_timer(writer: &mut Writer, timer: &Timer) -> Result<(), AllocError>
    ensures before { writer.new.before ≡ writer.old.before }
    ensures tokens { OnOk result
        (writer.new.tokens ≡ writer.old.tokens ++ data_tokens (timer_data timer.now)) }
{
    writer.begin_object()?;
    put_number(writer, "due", timer.due)?;
    put_under(writer, "event", &timer.event)?;
    put_name(writer, "id", &timer.id)?;
    put_number(writer, "order", timer.order)?;
    put_number(writer, "owner", timer.owner)?;
    put_number(writer, "target", timer.target)?;
    writer.end_object()
}
