// Lines, each answered before the next is read.
ghost use Rattle.std.specs.Prelude.{◌≡◌, ◌≢◌, ℕ, ◌+◌, ◌≤◌, All, List, length, take, IfSome, OnOk, MatchResult};
ghost use Rattle.std.specs.Io.KnownBytes.{Appends, Consumes};
ghost use Rattle.lines.specs.Lines.{lines_of};
ghost use Rattle.lines.specs.Reading.{ReadsLine};
ghost use Rattle.lines.specs.Streams.{Answering, AnswersAll, Streams, WritesAnswer};

use crate::fault::StreamError;
use crate::reading::{LineAhead, next_byte};
use std::alloc::Global;
use std::io;
use std::io::{Read, Write};

/// How many bytes are read at most.
pub const INPUT_BYTES: usize = 65_536;

/// What answers lines, each by itself.
pub trait Clerk {
    // The texts that may answer a line with this number.
    ghost answers: { Answering };

    /// Writes the answer of a line, whose number is given. Where that fails, a front of the answer was written.
    fn answer<W: Write>(number: usize, line: &[u8], writer: &mut W) -> io::Result<()>
        ensures { WritesAnswer answers number line.now
            (W.contents writer.old) (W.contents writer.new) result };
}

/// Reads lines, at most 65,536 bytes of them, and writes the answer of each before it reads on, and flushes before it has to wait
/// for a line. A newline ends a line, and so does the last byte that is read. Lines count from 1. The answer is whether the limit
/// was reached; else the reader is at its end.
pub fn answer_lines<C: Clerk, R: Read + LineAhead, W: Write>(
    alloc: Global,
    reader: &mut R,
    writer: &mut W,
) -> Result<bool, StreamError>
    // What was read and written, on success and on failure.
    ensures so_far { Streams C.answers 65536 (R.remaining reader.old) (R.remaining reader.new)
        (W.contents writer.old) (W.contents writer.new) result }

    // On success what was read is the first 65,536 bytes.
    ensures all { OnOk result (IfSome (R.remaining reader.old) (λ input.
        AnswersAll C.answers (lines_of (take 65536 input))
        (W.contents writer.old) (W.contents writer.new))) }
{
    let mut line = Vec::new(alloc);
    let mut left = INPUT_BYTES;
    for answered in 0..INPUT_BYTES {
        let more = match next_line(reader, &mut left, &mut line) {
            Ok(more) => more,
            Err(error) => return Err(StreamError::Input(error)),
        };
        if !more && line.is_empty() {
            return Ok(left == 0);
        }
        let waits = must_wait(reader, more, left);
        if let Err(error) = answer_line::<C, W>(answered + 1, &line, waits, writer) {
            return Err(StreamError::Output(error));
        }
        if !more {
            return Ok(left == 0);
        }
    }
    Ok(left == 0)
}

// Reads a line as `read_line` does, and moves to it in one piece what is at hand.
fn next_line<R: Read + LineAhead>(
    reader: &mut R,
    left: &mut usize,
    line: &mut Vec<u8>,
) -> io::Result<bool>
    ensures { (bytes : List ℕ) × Consumes (R.remaining reader.old) (R.remaining reader.new) bytes
        × (left.new + length bytes ≡ left.old)
        × MatchResult result
        (λ more. ReadsLine (R.remaining reader.new) left.new more line.new.items bytes)
        (λ _. All (λ byte. byte ≢ 10) bytes) }
{
    line.clear();
    while !reader.take_ahead(left, line)? {
        let next = if *left > 0 { next_byte(reader)? } else { None };
        let Some(byte) = next else {
            return Ok(false);
        };
        *left -= 1;
        if byte == b'\n' {
            return Ok(true);
        }
        line.push(byte)?;
    }
    Ok(true)
}

// Writes the answer of a line, and flushes if the next line has to be waited for, or there is none.
fn answer_line<C: Clerk, W: Write>(
    number: usize,
    line: &[u8],
    waits: bool,
    writer: &mut W,
) -> io::Result<()>
    ensures { WritesAnswer C.answers number line.now
        (W.contents writer.old) (W.contents writer.new) result }
{
    C::answer(number, line, writer)?;
    if waits { writer.flush() } else { Ok(()) }
}

// Whether the next line has to be waited for, or there is none.
fn must_wait<R: LineAhead>(reader: &R, more: bool, left: usize) -> bool {
    !more || left == 0 || !reader.has_line()
}
