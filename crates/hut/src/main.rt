// The hut's program. Standard input is a sheet: each line is a finish as it was read out, boat, time and checks. For each,
// as soon as it is complete, a line of five numbers is written: the line's number, the number of its refusal or 0, how many
// symbols were changed, the sail number, and the seconds since midnight.
#![tactic(auto)]

use lines::{INPUT_BYTES, has_more};
use sheet::finish_stream;
use std::io::{BufReader, BufWriter};

fn run(rt: &HostRuntime) -> anyhow::Result<()> {
    // The buffer may take up to 8,192 bytes past the limit from an input that other programs read too.
    let mut input = BufReader::new(rt.alloc(), rt.stdin())?;
    let mut output = BufWriter::new(rt.alloc(), rt.stdout())?;
    let full = finish_stream(rt.alloc(), &mut input, &mut output)?;
    if full && has_more(&mut input)? {
        eprintln!(rt; "hut: {INPUT_BYTES} bytes were read; more follow, and are not read")?;
    }
    Ok(())
}

fn main(rt: HostRuntime) -> anyhow::Result<()> {
    run(&rt)
}
