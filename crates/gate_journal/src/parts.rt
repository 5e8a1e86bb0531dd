//! The bytes of a side as they are read: its head, and the record that comes next.

ghost use Rattle.std.specs.Prelude.{◌≡◌, ◌+◌, ◌≤◌, length, take, drop};
ghost use Rattle.gate_journal.specs.Layout.{length_bytes, eight_bytes};
ghost use Rattle.gate_journal.specs.Parts.{HeadIs, NextIs};

/// The gate of a side or a record that counts.
pub const OPEN: u8 = 1;

/// The gate that is written behind the last record.
pub const CLOSED: u8 = 0;

/// How many bytes come before the base: the gate of the side, its generation and the length of the
/// base.
pub const HEAD: usize = 13;

/// How many bytes come before a payload: the gate of the record and the length.
pub const RECORD_HEAD: usize = 5;

/// The longest base, in bytes.
pub const MAX_BASE: usize = 1_073_741_824;

/// The longest record, in bytes.
pub const MAX_RECORD: usize = 131_072;

/// What the first bytes of a side say of it.
#[derive(Clone, Copy, Debug)]
pub enum Head {
    Closed,
    /// Open, and shorter than its head.
    Short,
    Open { generation: u64, size: u32 },
}

/// What stands next among the bytes that are there.
#[derive(Clone, Copy, Debug)]
pub enum Next {
    /// A whole record, whose payload has so many bytes.
    Record(usize),
    /// A gate that isn't 1.
    End,
    /// A record of a length that none may have.
    Bad,
    /// No whole record as far as the bytes go.
    More,
}

/// The head of a side: all its bytes, or at least as many as a head has.
pub fn head_of(front: &[u8]) -> Head
    ensures { HeadIs result front.now }
{
    if front.len() < 2 || front[0] != OPEN {
        return Head::Closed;
    }
    if front.len() < HEAD {
        return Head::Short;
    }
    Head::Open {
        generation: number_of_8(front, 1),
        size: number_of_4(front, 9),
    }
}

/// The record at the front of these bytes.
pub fn next_record(text: &[u8]) -> Next
    ensures { NextIs result text.now }
{
    if text.is_empty() {
        return Next::More;
    }
    if text[0] != OPEN {
        return Next::End;
    }
    if text.len() < RECORD_HEAD {
        return Next::More;
    }
    let size = number_of_4(text, 1) as usize;
    if size == 0 || size > MAX_RECORD {
        return Next::Bad;
    }
    if text.len() - RECORD_HEAD < size {
        return Next::More;
    }
    Next::Record(size)
}

#[tactic(auto, unfolding(crate::specs::Layout::length_bytes))]
fn number_of_4(text: &[u8], at: usize) -> u32
    requires { at + 4 ≤ length text.now }
    ensures { length_bytes result ≡ take 4 (drop at text.now) }
{
    u32::from_be_bytes([text[at], text[at + 1], text[at + 2], text[at + 3]])
}

#[tactic(auto, unfolding(crate::specs::Layout::eight_bytes))]
fn number_of_8(text: &[u8], at: usize) -> u64
    requires { at + 8 ≤ length text.now }
    ensures { eight_bytes result ≡ take 8 (drop at text.now) }
{
    u64::from_be_bytes([
        text[at],
        text[at + 1],
        text[at + 2],
        text[at + 3],
        text[at + 4],
        text[at + 5],
        text[at + 6],
        text[at + 7],
    ])
}
