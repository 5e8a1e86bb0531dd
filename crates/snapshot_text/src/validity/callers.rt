//! Callers and their replies.

ghost use Rattle.std.specs.Prelude.{◌≢◌, ◌↔◌, All, AllPairs, IfOk, IsTrue};
ghost use Rattle.office_types.specs.declared.office.Caller.{Caller as caller};
ghost use Rattle.office_types.specs.ValidOffice.{IsCaller, IsDecidedReply};

use crate::validity::distinct::are_distinct;
use office_types::{Caller, Reply, Word, is_caller};
use std::alloc::{AllocError, Global};

/// Whether each caller is one that is kept. It looks at each reply once.
pub(crate) fn are_callers(callers: &[Caller]) -> bool
    ensures { IsTrue result ↔ All IsCaller callers.now }
{
    callers.iter().all(|caller| is_kept_caller(caller))
}

fn is_kept_caller(caller: &Caller) -> bool
    ensures { IsTrue result ↔ IsCaller caller.now }
{
    if !is_caller(caller.name.as_bytes()) {
        return false;
    }
    if caller.replies.is_empty() {
        return false;
    }
    are_decided(caller.replies.as_slice())
}

fn are_decided(replies: &[Reply]) -> bool
    ensures { IsTrue result ↔ All IsDecidedReply replies.now }
{
    for reply in replies {
        if !is_decided(reply) {
            return false;
        }
    }
    true
}

/// Whether the reply decides a request: its status and its word are those of a decision.
fn is_decided(reply: &Reply) -> bool
    ensures { IsTrue result ↔ IsDecidedReply reply.now }
{
    match reply.word {
        Word::Machine => reply.status == 404,
        Word::Name => reply.status == 409,
        Word::Moment => reply.status == 409,
        Word::Actors => reply.status == 429,
        Word::Letters => reply.status == 429,
        Word::Actor => reply.status == 404 || reply.status == 201,
        Word::Stopped => reply.status == 410,
        Word::Closed => reply.status == 410,
        Word::Reserved => reply.status == 422,
        Word::Item => reply.status == 404 || reply.status == 200,
        Word::Letter => reply.status == 202,
        Word::Due => reply.status == 200,
        Word::Gap
        | Word::Callers
        | Word::Replies
        | Word::Entries
        | Word::Disk
        | Word::Journal
        | Word::Memory => false,
    }
}

/// Whether no two callers have one name. It sorts the names.
pub(crate) fn are_callers_once(alloc: Global, callers: &[Caller]) -> Result<bool, AllocError>
    ensures { IfOk result (λ once. IsTrue once
        ↔ AllPairs (λ (a b : caller). a.name ≢ b.name) callers.now) }
{
    let mut names = Vec::with_capacity(alloc, callers.len())?;
    for caller in callers {
        names.push(caller.name.as_bytes())?;
    }
    Ok(are_distinct(names))
}
