// What no clause says: that a run succeeds, and which failure comes where one part fails.
ghost use Rattle.std.specs.Prelude.{⊤};

use crate::answering::{Clerk, INPUT_BYTES, answer_lines};
use crate::fault::StreamError;
use crate::reading::{LineAhead, has_more, read_line};
use crate::writing::write_text;
use std::io;
use std::io::{BufReader, BufWriter, ErrorKind, Read, Write};

// Answers a line by its first byte, or by a dash, so that a lost or doubled byte shows.
struct First;

impl Clerk for First {
    ghost answers = { λ _ _ _. ⊤ };

    fn answer<W: Write>(_number: usize, line: &[u8], writer: &mut W) -> io::Result<()> {
        write_text(writer, &[line.first().copied().unwrap_or(b'-'), b'\n'])
    }
}

// Gives a text, at most three bytes at a time, and then fails. Each other read is interrupted first.
#[derive(Drop)]
struct Failing<'a> {
    rest: &'a [u8],
    interrupted: bool,
}

impl Read for Failing<'_> {
    fn read(&mut self, buf: &mut [u8]) -> io::Result<usize> {
        self.interrupted = !self.interrupted;
        if self.interrupted {
            return Err(io::Error::from(ErrorKind::Interrupted));
        }
        if self.rest.is_empty() {
            return Err(io::Error::from(ErrorKind::ConnectionReset));
        }
        let n = self.rest.len().min(buf.len()).min(3);
        buf[..n].copy_from_slice(&self.rest[..n]);
        self.rest = &self.rest[n..];
        Ok(n)
    }
}

// It is known of no line that it is there.
impl LineAhead for Failing<'_> {
    fn has_line(&self) -> bool {
        false
    }
}

// Takes a byte at a time, as long as there is room, and then fails.
#[derive(Drop)]
struct Full {
    held: Vec<u8>,
    room: usize,
}

impl Write for Full {
    fn write(&mut self, buf: &[u8]) -> io::Result<usize> {
        if self.room == 0 {
            return Err(io::Error::from(ErrorKind::StorageFull));
        }
        let n = buf.len().min(1);
        self.held.extend_from_slice(&buf[..n])?;
        self.room -= 1;
        Ok(n)
    }

    fn flush(&mut self) -> io::Result<()> {
        Ok(())
    }
}

#[test]
fn answers_each_line(rt: HostRuntime) {
    for (text, want) in [
        (&b""[..], &b""[..]),
        (b"\n", b"-\n"),
        (b"a", b"a\n"),
        (b"a\n", b"a\n"),
        (b"ab\n\nc", b"a\n-\nc\n"),
        (b"\n\n", b"-\n-\n"),
    ] {
        let mut input = text;
        let mut output = Vec::new(rt.alloc());
        let full = answer_lines::<First, _, _>(rt.alloc(), &mut input, &mut output);
        assert!(rt; matches!(full, Ok(false)));
        assert!(rt; output.as_slice() == want);
    }
}

#[test]
fn a_reader_that_fails_in_mid_line(rt: HostRuntime) {
    let mut input = Failing {
        rest: b"one\ntwo\nthr",
        interrupted: false,
    };
    let mut output = Vec::new(rt.alloc());
    let result = answer_lines::<First, _, _>(rt.alloc(), &mut input, &mut output);
    assert!(rt; matches!(result, Err(StreamError::Input(_))));
    assert!(rt; output.as_slice() == b"o\nt\n".as_slice());
}

#[test]
fn a_buffered_reader_that_fails_in_mid_line(rt: HostRuntime) {
    let failing = Failing {
        rest: b"one\ntwo\nthr",
        interrupted: false,
    };
    let Ok(mut input) = BufReader::new(rt.alloc(), failing) else {
        return;
    };
    let Ok(mut output) = BufWriter::new(rt.alloc(), Vec::new(rt.alloc())) else {
        return;
    };
    let result = answer_lines::<First, _, _>(rt.alloc(), &mut input, &mut output);
    assert!(rt; matches!(result, Err(StreamError::Input(_))));
    // The answers are out, and not in the buffer.
    assert!(rt; output.get_ref().as_slice() == b"o\nt\n".as_slice());
}

#[test]
fn a_writer_that_fails_in_mid_line(rt: HostRuntime) {
    let mut input: &[u8] = b"one\ntwo\nthree\n";
    let mut output = Full {
        held: Vec::new(rt.alloc()),
        room: 3,
    };
    let result = answer_lines::<First, _, _>(rt.alloc(), &mut input, &mut output);
    assert!(rt; matches!(result, Err(StreamError::Output(_))));
    assert!(rt; output.held.as_slice() == b"o\nt".as_slice());
    // What was not answered was not read.
    assert!(rt; input == b"three\n".as_slice());
}

#[test]
fn one_line_about_as_long_as_the_limit(rt: HostRuntime) {
    let Ok(bytes) = vec![in rt.alloc(); b'x'; 65_537] else {
        return;
    };
    for (n, want, rest) in [
        (65_535, false, false),
        (65_536, true, false),
        (65_537, true, true),
    ] {
        assert!(rt; n <= bytes.len());
        let mut input = &bytes.as_slice()[..n];
        let mut output = Vec::new(rt.alloc());
        let full = answer_lines::<First, _, _>(rt.alloc(), &mut input, &mut output);
        assert!(rt; matches!(full, Ok(found) if found == want));
        assert!(rt; output.as_slice() == b"x\n".as_slice());
        assert!(rt; matches!(has_more(&mut input), Ok(found) if found == rest));
    }
}

#[test]
fn more_newlines_than_may_be_read(rt: HostRuntime) {
    let Ok(bytes) = vec![in rt.alloc(); b'\n'; 65_537] else {
        return;
    };
    let Ok(mut input) = BufReader::new(rt.alloc(), bytes.as_slice()) else {
        return;
    };
    let Ok(mut output) = BufWriter::new(rt.alloc(), Vec::new(rt.alloc())) else {
        return;
    };
    let full = answer_lines::<First, _, _>(rt.alloc(), &mut input, &mut output);
    assert!(rt; matches!(full, Ok(true)));
    assert!(rt; output.get_ref().len() == 2 * INPUT_BYTES);
    assert!(rt; output.get_ref().as_slice().ends_with(b"-\n-\n"));
    assert!(rt; matches!(has_more(&mut input), Ok(true)));
    assert!(rt; matches!(has_more(&mut input), Ok(false)));
}

#[test]
fn a_line_that_the_limit_cuts(rt: HostRuntime) {
    let Ok(mut bytes) = vec![in rt.alloc(); b'\n'; 65_534] else {
        return;
    };
    if bytes.extend_from_slice(b"abc\n").is_err() {
        return;
    }
    let mut input = bytes.as_slice();
    let mut output = Vec::new(rt.alloc());
    let full = answer_lines::<First, _, _>(rt.alloc(), &mut input, &mut output);
    assert!(rt; matches!(full, Ok(true)));
    assert!(rt; output.len() == 2 * 65_535);
    assert!(rt; output.as_slice().ends_with(b"-\na\n"));
    assert!(rt; input == b"c\n".as_slice());
}

#[test]
fn a_line_at_a_time(rt: HostRuntime) {
    let mut input: &[u8] = b"ab\n\ncde";
    let mut left = 6;
    let mut line = Vec::new(rt.alloc());
    for (want, bytes) in [
        (true, &b"ab"[..]),
        (true, b""),
        (false, b"cd"),
        (false, b""),
    ] {
        let more = read_line(&mut input, &mut left, &mut line);
        assert!(rt; matches!(more, Ok(found) if found == want));
        assert!(rt; line.as_slice() == bytes);
    }
    assert!(rt; left == 0);
    assert!(rt; input == b"e".as_slice());
}

#[test]
fn what_is_at_hand_is_moved(rt: HostRuntime) {
    let Ok(mut input) = BufReader::new(rt.alloc(), b"ab\n\ncde".as_slice()) else {
        return;
    };
    let mut left = 5;
    let mut line = Vec::new(rt.alloc());
    // Nothing is read before it is asked for.
    assert!(rt; matches!(input.take_ahead(&mut left, &mut line), Ok(false)));
    assert!(rt; left == 5 && line.is_empty());
    assert!(rt; matches!(has_more(&mut input), Ok(true)));
    for (want, bytes, rest) in [
        (true, &b"b"[..], 3),
        (true, b"b", 2),
        (false, b"bcd", 0),
        (false, b"bcd", 0),
    ] {
        let ended = input.take_ahead(&mut left, &mut line);
        assert!(rt; matches!(ended, Ok(found) if found == want));
        assert!(rt; line.as_slice() == bytes);
        assert!(rt; left == rest);
    }
    assert!(rt; matches!(has_more(&mut input), Ok(true)));
    assert!(rt; matches!(has_more(&mut input), Ok(false)));
}

#[test]
fn a_buffered_line_that_the_limit_cuts(rt: HostRuntime) {
    let Ok(bytes) = vec![in rt.alloc(); b'x'; 65_537] else {
        return;
    };
    let Ok(mut input) = BufReader::new(rt.alloc(), bytes.as_slice()) else {
        return;
    };
    let mut output = Vec::new(rt.alloc());
    let full = answer_lines::<First, _, _>(rt.alloc(), &mut input, &mut output);
    assert!(rt; matches!(full, Ok(true)));
    assert!(rt; output.as_slice() == b"x\n".as_slice());
    assert!(rt; matches!(has_more(&mut input), Ok(true)));
    assert!(rt; matches!(has_more(&mut input), Ok(false)));
}
