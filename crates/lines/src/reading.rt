// A line at a time from a reader.
ghost use Rattle.std.specs.Prelude.{◌≡◌, ◌≢◌, ◌==◌, ℕ, ◌+◌, ◌<◌, ◌≤◌, [], ◌∷◌, ◌++◌, length, All, List, OnErr, IfOk, IfSome, nat_lt, MatchOption, MatchResult, position};
ghost use Rattle.std.specs.Io.KnownBytes.{Consumes, IsAtEnd, Keeps};
ghost use Rattle.lines.specs.Reading.{ReadsLine, TakesAhead};

use std::alloc::{AllocError, Allocator};
use std::io;
use std::io::{BufRead, BufReader, ErrorKind, Read};

/// A reader that may hold a line already.
pub trait LineAhead: Read {
    /// Whether a line and its newline can be read without waiting.
    fn has_line(&self) -> bool;

    /// Moves the bytes at hand to a line, up to a newline or as many as `left` allows, which counts the bytes that may still
    /// be read. The answer is whether the newline came, which is read too. Nothing is waited for.
    fn take_ahead(&mut self, left: &mut usize, line: &mut Vec<u8>) -> Result<bool, AllocError>
        ensures { (bytes : List ℕ) × Consumes (Self.remaining self.old) (Self.remaining self.new) bytes
            × (left.new + length bytes ≡ left.old)
            × MatchResult result
            (λ ended. TakesAhead line.old.items line.new.items ended bytes)
            (λ _. All (λ byte. byte ≢ 10) bytes) }
    {
        // Nothing is known to be at hand.
        Ok(false)
    }
}

impl<R: Read, A: Allocator> LineAhead for BufReader<R, A> {
    fn has_line(&self) -> bool {
        self.buffer().contains(&b'\n')
    }

    fn take_ahead(&mut self, left: &mut usize, line: &mut Vec<u8>) -> Result<bool, AllocError> {
        let held = self.buffer();
        let ahead = &held[..held.len().min(*left)];
        let more = newline_in(ahead).unwrap_or(ahead.len());
        let ended = more < ahead.len();
        line.extend_from_slice(&ahead[..more])?;
        let taken = if ended { more + 1 } else { more };
        self.consume(taken);
        *left -= taken;
        Ok(ended)
    }
}

// Where the first newline is.
fn newline_in(bytes: &[u8]) -> Option<usize>
    ensures { result ≡ position (λ byte. byte == 10) bytes.now }
{
    bytes.iter().position(|byte| *byte == b'\n')
}

// Bytes in memory are all at hand.
impl LineAhead for &[u8] {
    fn has_line(&self) -> bool {
        self.contains(&b'\n')
    }
}

/// Reads a line: the bytes before the next newline, or before the end, or as many as `left` allows, which counts the bytes
/// that may still be read. The answer is whether a newline ended the line; else nothing more is to be read. A reader that
/// gave its end is not read again, since a terminal would wait for another line.
pub fn read_line<R: Read>(reader: &mut R, left: &mut usize, line: &mut Vec<u8>) -> io::Result<bool>
    ensures { (bytes : List ℕ) × Consumes (R.remaining reader.old) (R.remaining reader.new) bytes
        × (left.new + length bytes ≡ left.old)
        × MatchResult result
        (λ more. ReadsLine (R.remaining reader.new) left.new more line.new.items bytes)
        (λ _. All (λ byte. byte ≢ 10) bytes) }
{
    line.clear();
    while *left > 0 {
        let Some(byte) = next_byte(reader)? else {
            return Ok(false);
        };
        *left -= 1;
        if byte == b'\n' {
            return Ok(true);
        }
        line.push(byte)?;
    }
    Ok(false)
}

/// Whether the reader has another byte, which is read if so.
pub fn has_more<R: Read>(reader: &mut R) -> io::Result<bool>
    ensures { IfOk result (λ more. IfSome (R.remaining reader.old)
        (λ rest. more ≡ nat_lt 0 (length rest))) }
{
    Ok(next_byte(reader)?.is_some())
}

// The next byte, or `None` at the end. A read that a signal interrupts is repeated.
pub(crate) fn next_byte<R: Read>(reader: &mut R) -> io::Result<Option<u8>>
    ensures byte { IfOk result (λ next. MatchOption next
        (Keeps (R.remaining reader.old) (R.remaining reader.new) × IsAtEnd (R.remaining reader.new))
        (λ byte. Consumes (R.remaining reader.old) (R.remaining reader.new) (byte ∷ []))) }
    ensures err { OnErr result (Keeps (R.remaining reader.old) (R.remaining reader.new)) }
{
    let mut one = [0u8; 1];
    for _ in 0..u64::MAX {
        match reader.read(&mut one) {
            Ok(0) => return Ok(None),
            Ok(_) => return Ok(Some(one[0])),
            Err(error) => {
                if error.kind() != ErrorKind::Interrupted {
                    return Err(error);
                }
            }
        }
    }
    Err(io::Error::from(ErrorKind::TimedOut))
}
