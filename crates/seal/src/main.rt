// Seals the rows of a finish, for the boat that reads them out. Each line of standard input holds the eight characters of
// a boat and a time. For each, as soon as it is complete, a line is written with the sealed row of twelve characters, or
// with the number of the refusal and the byte where it lies.
#![tactic(auto)]

use lines::{INPUT_BYTES, has_more};
use sheet::seal_stream;
use std::io::{BufReader, BufWriter};

fn run(rt: &HostRuntime) -> anyhow::Result<()> {
    // The buffer may take up to 8,192 bytes past the limit from an input that other programs read too.
    let mut input = BufReader::new(rt.alloc(), rt.stdin())?;
    let mut output = BufWriter::new(rt.alloc(), rt.stdout())?;
    let full = seal_stream(rt.alloc(), &mut input, &mut output)?;
    if full && has_more(&mut input)? {
        eprintln!(rt; "seal: {INPUT_BYTES} bytes were read; more follow, and are not read")?;
    }
    Ok(())
}

fn main(rt: HostRuntime) -> anyhow::Result<()> {
    run(&rt)
}
