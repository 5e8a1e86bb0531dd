//! The input of a run, cut into lines as it comes.

ghost use Rattle.std.specs.Prelude.{◌≡◌, ◌≢◌, ◌+◌, ◌<◌, ◌≤◌, ◌^◌, [], length, take, false, position, vec_len, OnErr, IfOk, ℕ, List};
ghost use Rattle.office_run.specs.Input.{Fills, MovesToLine, GivesNext, taken_count};
ghost use Rattle.office_run.specs.LineBuffer.{Extends};
ghost use Rattle.office_run.specs.Lines.{is_feed};
ghost use Rattle.xs_outside.specs.Counts.{Rose};
ghost use Rattle.xs_outside.specs.Streams.{CountsReadFailure, ReadGives, bytes_given};

use crate::line_buffer::LineBuffer;
use flat_core::MAX_LINE;
use std::alloc::{AllocError, Global};
use std::marker::Model;
use xs_outside::{Both, Got, Source};

/// A run takes at most this many bytes of its input, and one more to see that there are more.
pub const MAX_INPUT: u64 = 1 << 30;

/// How many bytes are asked for at once: as many as the longest line has.
const PIECE: usize = MAX_LINE;

/// What comes next in the input.
#[derive(Clone, Copy, Debug, PartialEq, Eq)]
pub enum Next {
    /// A line, in the buffer.
    Line,
    /// The end: no byte is left.
    End,
    /// More bytes than a run takes.
    TooMuch,
    /// The source failed.
    Failed,
    /// Memory was wanted.
    Memory,
}

/// What came of asking the source.
#[derive(Clone, Copy, Debug, PartialEq, Eq)]
enum Fill {
    More,
    End,
    TooMuch,
    Failed,
}

/// The input of a run, taken in pieces and cut into lines as they come. It keeps one piece.
#[derive(Debug, Drop)]
pub struct Input {
    piece: Vec<u8>,
    start: usize,
    end: usize,
    taken: u64,
    ended: bool,
}

impl Model for Input {
    ghost use Rattle.std.specs.Prelude.{◌-◌, take, drop, vec_len};
    ghost use Rattle.office_run.specs.Input.{Taken, IsHeld};

    ghost Value = { Taken };

    ghost view = { λ i. record {
      used = i.taken - (i.end - i.start);
      pending = take (i.end - i.start) (drop i.start i.piece.items);
      ended = i.ended;
    } };

    ghost invariant = { λ i. IsHeld i.start i.end (vec_len i.piece) i.taken };
}

impl Input {
    /// The input before its first byte, with room for a piece.
    pub fn new(alloc: Global) -> Result<Input, AllocError>
        ensures { IfOk result (λ input. input ≡ record { used = 0; pending = []; ended = false }) }
    {
        Ok(Input {
            piece: new_piece(alloc)?,
            start: 0,
            end: 0,
            taken: 0,
            ended: false,
        })
    }

    /// Reads the next line into the buffer. Each byte is looked at once.
    pub fn next_line<S: Both>(&mut self, source: &mut S, line: &mut LineBuffer) -> Next
        requires { taken_count self.old ≤ MAX_INPUT }
        ensures gives { GivesNext result line.new
            (record { input = self.old; left = S.left source.old; taken = S.taken source.old })
            (record { input = self.new; left = S.left source.new; taken = S.taken source.new }) }
        ensures written { S.written source.new ≡ S.written source.old }
        ensures write_faults { S.write_faults source.new ≡ S.write_faults source.old }
        ensures failed { result ≡ Next.Failed
            → Rose (S.read_faults source.old) (S.read_faults source.new) }
        ensures not_failed { result ≢ Next.Failed
            → S.read_faults source.new ≡ S.read_faults source.old }
    {
        line.clear();
        if self.ended {
            return Next::End;
        }
        'pieces: loop {
            match self.move_to(line) {
                Ok(true) => return Next::Line,
                Ok(false) => {}
                Err(_) => return Next::Memory,
            }
            match self.fill(source) {
                Fill::More => {}
                Fill::End if line.len == 0 => return Next::End,
                Fill::End => return Next::Line,
                Fill::TooMuch => return Next::TooMuch,
                Fill::Failed => return Next::Failed,
            }
        }
    }

    /// Moves the bytes up to the next line feed to the line, and tells whether there was one, which it drops.
    fn move_to(&mut self, line: &mut LineBuffer) -> Result<bool, AllocError>
        requires { line.old.len + length self.old.pending < 2 ^ 64 }
        ensures ok { IfOk result (λ fed. (more : List ℕ)
            × MovesToLine fed self.old self.new more × Extends line.old line.new more) }
        ensures err { OnErr result (self.new ≡ self.old) }
    {
        let pending = &self.piece[self.start..self.end];
        match place_of_feed(pending) {
            Some(place) => {
                line.push(&pending[..place])?;
                self.start += place + 1;
                Ok(true)
            }
            None => {
                line.push(pending)?;
                self.start = self.end;
                Ok(false)
            }
        }
    }

    /// Takes the next piece, where nothing is pending.
    fn fill<S: Both>(&mut self, source: &mut S) -> Fill
        requires { self.old.pending ≡ [] }
        ensures fills { Fills result
            (record { input = self.old; left = S.left source.old; taken = S.taken source.old })
            (record { input = self.new; left = S.left source.new; taken = S.taken source.new }) }
        ensures written { S.written source.new ≡ S.written source.old }
        ensures write_faults { S.write_faults source.new ≡ S.write_faults source.old }
        ensures failed { result ≡ Fill.Failed
            → Rose (S.read_faults source.old) (S.read_faults source.new) }
        ensures not_failed { result ≢ Fill.Failed
            → S.read_faults source.new ≡ S.read_faults source.old }
    {
        self.start = 0;
        self.end = 0;
        let room = (MAX_INPUT - self.taken).min(self.piece.len() as u64) as usize;
        if room == 0 {
            return self.look_past(source);
        }
        match read_piece(source, &mut self.piece, room) {
            Got::Bytes(count) => {
                self.end = count;
                self.taken += count as u64;
                Fill::More
            }
            Got::End => {
                self.ended = true;
                Fill::End
            }
            Got::Failed => Fill::Failed,
        }
    }

    /// Sees whether there is a byte past the last one that a run takes.
    fn look_past<S: Both>(&mut self, source: &mut S) -> Fill
        requires empty { self.old.pending ≡ [] }
        requires full { self.old.used ≡ MAX_INPUT }
        ensures fills { Fills result
            (record { input = self.old; left = S.left source.old; taken = S.taken source.old })
            (record { input = self.new; left = S.left source.new; taken = S.taken source.new }) }
        ensures written { S.written source.new ≡ S.written source.old }
        ensures write_faults { S.write_faults source.new ≡ S.write_faults source.old }
        ensures failed { result ≡ Fill.Failed
            → Rose (S.read_faults source.old) (S.read_faults source.new) }
        ensures not_failed { result ≢ Fill.Failed
            → S.read_faults source.new ≡ S.read_faults source.old }
    {
        match source.read(&mut [0]) {
            Got::Bytes(_) => Fill::TooMuch,
            Got::End => {
                self.ended = true;
                Fill::End
            }
            Got::Failed => Fill::Failed,
        }
    }
}

/// Room for a piece of input.
pub fn new_piece(alloc: Global) -> Result<Vec<u8>, AllocError>
    ensures { IfOk result (λ piece. 0 < vec_len piece) }
{
    vec![in alloc; 0; PIECE]
}

/// Reads into the front of a piece.
pub fn read_piece<S: Source>(source: &mut S, piece: &mut [u8], room: usize) -> Got
    requires some { 0 < room }
    requires within { room ≤ length piece.old }
    ensures gives { ReadGives result (take room piece.new) (S.left source.old) (S.left source.new) }
    ensures taken { S.taken source.new ≡ S.taken source.old + bytes_given result }
    ensures faults { CountsReadFailure result
        (S.read_faults source.old) (S.read_faults source.new) }
    ensures relation { S.reads result source.old source.new }
{
    source.read(&mut piece[..room])
}

/// Where the first line feed stands.
fn place_of_feed(bytes: &[u8]) -> Option<usize>
    ensures { result ≡ position is_feed bytes.now }
{
    bytes.iter().position(|byte| *byte == b'\n')
}
