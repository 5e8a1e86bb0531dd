//! The line that is being read.

ghost use Rattle.std.specs.Prelude.{◌≡◌, ◌+◌, [], ◌^◌, ◌<◌, length, OnOk, OnErr, IsTrue, ◌↔◌};

use flat_core::MAX_LINE;
use std::alloc::{AllocError, Global};

/// The line that is being read: as many of its first bytes as a line may have, and how many it has. It keeps no more, however
/// long the line is.
#[derive(Debug, Drop)]
pub struct LineBuffer {
    pub bytes: Vec<u8>,
    pub len: u64,
}

impl LineBuffer {
    ghost use Rattle.flat_core.specs.declared.request_line.TheConstants.{MAX_LINE};
    ghost use Rattle.office_run.specs.LineBuffer.{Extends, Holds};

    /// An empty line. It takes no memory.
    pub fn new(alloc: Global) -> LineBuffer
        ensures { Holds result [] }
    {
        LineBuffer {
            bytes: Vec::new(alloc),
            len: 0,
        }
    }

    /// Begins the next line.
    pub fn clear(&mut self)
        ensures { Holds self.new [] }
    {
        self.bytes.clear();
        self.len = 0;
    }

    /// Whether the line has more bytes than a line may have.
    pub fn is_long(&self) -> bool
        ensures { IsTrue result ↔ (MAX_LINE < self.now.len) }
    {
        self.len > MAX_LINE as u64
    }

    /// Adds the next bytes of the line. An `Err` changes nothing.
    pub fn push(&mut self, more: &[u8]) -> Result<(), AllocError>
        requires { self.old.len + length more.now < 2 ^ 64 }
        ensures ok { OnOk result (Extends self.old self.new more.now) }
        ensures err { OnErr result (Extends self.old self.new []) }
    {
        let room = MAX_LINE.saturating_sub(self.bytes.len());
        self.bytes.extend_from_slice(&more[..room.min(more.len())])?;
        self.len += more.len() as u64;
        Ok(())
    }
}
