// Runs strings of BIP 173 through the sheet code: each line of standard input that does not begin with # is a string, and for
// each a line is written, before the next is read, that says whether its row is sound, or too long for the code, or whether the
// string cannot be read. Only the check is looked at, and not what the string means.
#![tactic(auto)]

use anyhow::Context;
use checksum::symbols::element;
use checksum::{Bech32, Checksum, is_sound};
use fields::{Fe32, Field};
use sheet::Character;
use sheet::characters::read_character;
use std::alloc::Global;
use std::io::{BufRead, BufReader};

fn symbol(number: u8) -> anyhow::Result<Fe32> {
    element::<Bech32>(number).context("a symbol above 31")
}

// The human-readable part as symbols: the high bits of each character, ZERO, and the low five bits of each, in small letters.
fn expand(row: &mut Vec<Fe32>, part: &[u8]) -> anyhow::Result<()> {
    for byte in part {
        row.push(symbol(byte.to_ascii_lowercase() >> 5)?)?;
    }
    row.push(Fe32::ZERO)?;
    for byte in part {
        row.push(symbol(byte.to_ascii_lowercase() % 32)?)?;
    }
    Ok(())
}

// The last 1 parts the human-readable part from the data. There is no row where there is none, or where a character is
// none that such a string may have.
fn read_string(heap: Global, text: &[u8]) -> anyhow::Result<Option<Vec<Fe32>>> {
    let Some(separator) = text.iter().rposition(|byte| *byte == b'1') else {
        return Ok(None);
    };
    let part = &text[..separator];
    if !part.iter().all(|byte| byte.is_ascii_graphic()) {
        return Ok(None);
    }
    let mut row = Vec::new(heap);
    expand(&mut row, part)?;
    for byte in &text[separator + 1..] {
        match read_character(*byte) {
            Some(Character::Symbol(number)) => row.push(symbol(number)?)?,
            _ => return Ok(None),
        }
    }
    Ok(Some(row))
}

fn verdict(row: &[Fe32]) -> &'static str {
    if row.len() > Bech32::CODE_LENGTH {
        "too long"
    } else if is_sound::<Bech32>(row) {
        "sound"
    } else {
        "not sound"
    }
}

// A line without what ends it: a newline, or a return and a newline.
fn without_ending(line: &[u8]) -> &[u8] {
    match line.strip_suffix(b"\n") {
        Some(text) => text.strip_suffix(b"\r").unwrap_or(text),
        None => line,
    }
}

// Writes the verdict on a string, and nothing for a comment.
fn write_verdict(rt: &HostRuntime, string: &[u8]) -> anyhow::Result<()> {
    if string.starts_with(b"#") {
        return Ok(());
    }
    let verdict = match read_string(rt.alloc(), string)? {
        Some(row) => verdict(row.as_slice()),
        None => "unreadable",
    };
    let text = String::from_utf8_lossy(rt.alloc(), string)?;
    println!(rt; "{text}: {verdict}")?;
    Ok(())
}

fn run(rt: &HostRuntime) -> anyhow::Result<()> {
    let mut input = BufReader::new(rt.alloc(), rt.stdin())?;
    // By bytes, since a string may have some that make no text.
    let mut line = Vec::new(rt.alloc());
    for _ in 0..u64::MAX {
        line.clear();
        if input.read_until(b'\n', &mut line)? == 0 {
            break;
        }
        write_verdict(rt, without_ending(line.as_slice()))?;
        // The input has ended. A terminal that is read again would wait for another line.
        if !line.ends_with(b"\n") {
            break;
        }
    }
    Ok(())
}

fn main(rt: HostRuntime) -> anyhow::Result<()> {
    run(&rt)
}
