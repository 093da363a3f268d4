// The hut's sheet, from a reader to a writer: each line is answered before the next is read.
ghost use Rattle.std.specs.Prelude.{ℕ, List, IfSome, OnOk, take};
ghost use Rattle.std.specs.Io.KnownBytes.{Appends};
ghost use Rattle.lines.specs.Lines.{lines_of};
ghost use Rattle.lines.specs.Streams.{Streams};
ghost use Rattle.sheet.specs.Shown.{ShowsLine, Whole, finish_numeric};

use crate::hut_lines::finish_line;
use lines::{Clerk, LineAhead, StreamError, answer_lines, write_text};
use std::alloc::Global;
use std::io;
use std::io::{Read, Write};

/// Answers a typed line by its output line.
pub struct FinishClerk;

impl Clerk for FinishClerk {
    ghost answers = { ShowsLine finish_numeric };

    fn answer<W: Write>(number: usize, line: &[u8], writer: &mut W) -> io::Result<()> {
        write_text(writer, &finish_line(number, line))
    }
}

/// Reads the lines of a sheet, at most 65,536 bytes of them, and writes the output line of each before it reads on. The answer
/// is whether the limit was reached; else the reader is at its end.
pub fn finish_stream<R: Read + LineAhead, W: Write>(
    alloc: Global,
    reader: &mut R,
    writer: &mut W,
) -> Result<bool, StreamError>
    // What was read and written, on success and on failure.
    ensures so_far { Streams (ShowsLine finish_numeric) 65536
        (R.remaining reader.old) (R.remaining reader.new)
        (W.contents writer.old) (W.contents writer.new) result }

    // On success the output lines are those of the first 65,536 bytes, of 31 bytes each.
    ensures all { OnOk result (IfSome (R.remaining reader.old) (λ input. (bytes : List ℕ)
        × Appends (W.contents writer.old) (W.contents writer.new) bytes
        × Whole finish_numeric (lines_of (take 65536 input)) bytes)) }
{
    answer_lines::<FinishClerk, R, W>(alloc, reader, writer)
}
