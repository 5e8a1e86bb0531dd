//! Writing all of some bytes.

ghost use Rattle.xoffice.specs.Answers.{WritesTo};

use std::io::{self, ErrorKind, Write};

/// Writes all bytes. Where it fails, a front part of them may be out.
pub fn write_whole<W: Write>(writer: &mut W, bytes: &[u8]) -> io::Result<()>
    ensures { WritesTo result bytes.now (W.contents writer.old) (W.contents writer.new) }
{
    // `write_all` tells nothing of what went out before an error. The bound lets the loop end for a writer that
    // is interrupted again and again.
    let mut out = 0;
    for _ in 0..u64::MAX {
        if out == bytes.len() {
            return Ok(());
        }
        match writer.write(&bytes[out..]) {
            Ok(0) => return Err(ErrorKind::WriteZero.into()),
            Ok(count) => out += count,
            Err(error) if error.kind() == ErrorKind::Interrupted => {}
            Err(error) => return Err(error),
        }
    }
    Err(ErrorKind::TimedOut.into())
}
