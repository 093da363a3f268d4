// Replays recorded answers on rows, by each code that the library has. The commands:
//     E CODE ROW    the row's residue, lowest power first
//     S CODE ROW    the check symbols that seal the row, in order
//     L CODE        the most symbols that a row may have
#![tactic(auto)]

use anyhow::{Context, anyhow};
use checksum::{Bech32, Checksum, Engine, Finish, seal};
use fields::Fe32;
use replay::elements::{read_elements, write_elements};
use replay::lines::replay;
use std::alloc::Global;

fn answer_by<C: Checksum<SymbolField = Fe32>>(
    heap: Global,
    letter: &str,
    row: &[Fe32],
) -> anyhow::Result<String> {
    match letter {
        "E" => write_elements(heap, Engine::<C>::of_row(row).residue()),
        "S" => write_elements(heap, seal::<C>(row).symbols()),
        _ => Err(anyhow!("an unknown command")),
    }
}

fn limit(heap: Global, code: &str) -> anyhow::Result<String> {
    let most = match code {
        "finish" => Finish::CODE_LENGTH,
        "sheet" => Bech32::CODE_LENGTH,
        _ => return Err(anyhow!("an unknown code")),
    };
    Ok(most.to_string(heap)?)
}

fn answer(heap: Global, command: &str) -> anyhow::Result<String> {
    let (letter, rest) = command.split_once(' ').context("a command without a code")?;
    // Only this command has no row.
    if letter == "L" {
        return limit(heap, rest);
    }
    let (code, row) = rest.split_once(' ').context("a command without a row")?;
    let row = read_elements(heap, row)?;
    match code {
        "finish" => answer_by::<Finish>(heap, letter, row.as_slice()),
        "sheet" => answer_by::<Bech32>(heap, letter, row.as_slice()),
        _ => Err(anyhow!("an unknown code")),
    }
}

fn main(rt: HostRuntime) -> anyhow::Result<()> {
    replay(&rt, answer)
}
