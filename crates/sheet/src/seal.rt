// What is written for boats' lines, from a reader to a writer: each is sealed before the next is read.
ghost use Rattle.std.specs.Prelude.{◌≡◌, IfSome, OnOk, take};
ghost use Rattle.arrayvec.specs.ArrayVec.{array_vec_len};
ghost use Rattle.lines.specs.Lines.{lines_of};
ghost use Rattle.lines.specs.Streams.{AnswersAll, Streams};
ghost use Rattle.sheet.specs.Sealed.{sealed_line};
ghost use Rattle.sheet.specs.Written.{SealedText, refusal_text, sealed_text, with_newline};

use crate::refusal::Refusal;
use crate::sealed::seal_line;
use arrayvec::ArrayVec;
use itoa::Buffer;
use lines::{Clerk, LineAhead, StreamError, answer_lines, write_text};
use std::alloc::Global;
use std::io;
use std::io::{Read, Write};

/// Answers a boat's line by its sealed row, or by its refusal.
pub struct SealClerk;

impl Clerk for SealClerk {
    ghost answers = { SealedText };

    fn answer<W: Write>(_number: usize, line: &[u8], writer: &mut W) -> io::Result<()> {
        let text = seal_text(line);
        write_text(writer, text.as_slice())
    }
}

/// Reads boats' lines, at most 65,536 bytes of them, and writes the sealed row or the refusal of each before it reads on. The
/// answer is whether the limit was reached; else the reader is at its end.
pub fn seal_stream<R: Read + LineAhead, W: Write>(
    alloc: Global,
    reader: &mut R,
    writer: &mut W,
) -> Result<bool, StreamError>
    // What was read and written, on success and on failure.
    ensures so_far { Streams SealedText 65536 (R.remaining reader.old) (R.remaining reader.new)
        (W.contents writer.old) (W.contents writer.new) result }

    // On success each line of the first 65,536 bytes is answered.
    ensures all { OnOk result (IfSome (R.remaining reader.old) (λ input.
        AnswersAll SealedText (lines_of (take 65536 input))
        (W.contents writer.old) (W.contents writer.new))) }
{
    answer_lines::<SealClerk, R, W>(alloc, reader, writer)
}

/// How many bytes a text has at most: a number below 256, a space, a place of 64 bits and a newline.
pub const TEXT_BYTES: usize = 25;

/// What is written for a boat's line: the sealed row, or the number of the refusal and the byte where it lies.
pub fn seal_text(line: &[u8]) -> ArrayVec<u8, TEXT_BYTES>
    ensures { result.items ≡ sealed_text (sealed_line line.now) }
{
    match seal_line(line) {
        Ok(row) => write_row(&row),
        Err(fault) => write_refusal(&Refusal::from(fault)),
    }
}

fn write_row(row: &[u8; 14]) -> ArrayVec<u8, TEXT_BYTES>
    ensures { result.items ≡ with_newline row.now }
{
    let mut text = ArrayVec::new();
    text.try_extend_from_slice(row).unwrap();
    text.push(b'\n');
    text
}

fn write_refusal(why: &Refusal) -> ArrayVec<u8, TEXT_BYTES>
    ensures { result.items ≡ refusal_text why.now }
{
    let mut digits = Buffer::new();
    let mut text = ArrayVec::new();
    let number = why.number;
    text.try_extend_from_slice(digits.format(number).as_bytes())
        .unwrap();
    text.push(b' ');
    let place = why.place;
    text.try_extend_from_slice(digits.format(place).as_bytes())
        .unwrap();
    text.push(b'\n');
    text
}
