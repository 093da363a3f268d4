// A text to a writer.
ghost use Rattle.std.specs.Prelude.{◌≡◌, ℕ, ◌≤◌, length, take, OnOk, OnErr, IfOk};
ghost use Rattle.std.specs.Io.{WritesAtMost};
ghost use Rattle.std.specs.Io.KnownBytes.{Appends, Keeps};

use std::io;
use std::io::{ErrorKind, Write};

/// Writes a text. Where that fails, a front of it was written.
pub fn write_text<W: Write>(writer: &mut W, text: &[u8]) -> io::Result<()>
    ensures { (n : ℕ) × Appends (W.contents writer.old) (W.contents writer.new) (take n text.now)
        × OnOk result (length text.now ≤ n) }
{
    let mut written = 0;
    while written < text.len() {
        let n = write_once(writer, &text[written..])?;
        if n == 0 {
            return Err(io::Error::from(ErrorKind::WriteZero));
        }
        written += n;
    }
    Ok(())
}

// One write, repeated where a signal interrupts it.
fn write_once<W: Write>(writer: &mut W, bytes: &[u8]) -> io::Result<usize>
    ensures bound { WritesAtMost result bytes.now }
    ensures ok { IfOk result
        (λ n. Appends (W.contents writer.old) (W.contents writer.new) (take n bytes.now)) }
    ensures err { OnErr result (Keeps (W.contents writer.old) (W.contents writer.new)) }
{
    for _ in 0..u64::MAX {
        match writer.write(bytes) {
            Ok(n) => return Ok(n),
            Err(error) => {
                if error.kind() != ErrorKind::Interrupted {
                    return Err(error);
                }
            }
        }
    }
    Err(io::Error::from(ErrorKind::TimedOut))
}
