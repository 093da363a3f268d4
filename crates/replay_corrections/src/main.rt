// Replays recorded answers on garbled rows, by each code that the library has. The command:
//     CODE ROW PLACES    the row is written on a slip, and each of the places is doubted
// An answer has three parts. The first is what a solve lists: each record as place:change, in their order, with n, how many
// they are, and z, how many change something; or the number of the refusal. The second is the row that a settle leaves, or -
// where it is refused. The third has the records as the original lists them, each as position:change, where a position counts
// from the row's end.
#![tactic(auto)]

use anyhow::{Context, anyhow};
use book::{BLANK, CodeFault, Record};
use checksum::{Bech32, Checksum, Finish};
use correction::{settle, solve};
use fields::Field;
use replay::commas::WithCommas;
use replay::lines::replay;
use replay::outcomes::write_outcome;
use sheet::refusal_number;
use slip::Slip;
use std::alloc::Global;
use std::fmt;
use std::fmt::Display;

// What is lent: no code asks for more.
const RECORDS: usize = 16;

const WORKING: usize = 216;

// What a solve or a settle lists: the first of the records that were lent, and how many of these change something. A slice and a
// number, since that the number is within the slice only a proof would know, and what is printed has none.
#[derive(Clone, Copy)]
struct Found<'a> {
    lent: &'a [Record],
    written: usize,
    nonzero: usize,
}

impl Display for Found<'_> {
    fn fmt<W: fmt::Write>(&self, f: &mut fmt::Formatter<W>) -> fmt::Result {
        for record in self.lent.iter().take(self.written) {
            write!(f, "{}:{} ", record.place, record.change)?;
        }
        write!(f, "n={} z={}", self.written, self.nonzero)
    }
}

// The same as the original lists it, on a row of so many symbols.
#[derive(Clone, Copy)]
struct ByPosition<'a> {
    listing: Found<'a>,
    symbols: usize,
}

impl Display for ByPosition<'_> {
    fn fmt<W: fmt::Write>(&self, f: &mut fmt::Formatter<W>) -> fmt::Result {
        write!(f, "some")?;
        for record in self.listing.lent.iter().take(self.listing.written) {
            let position = self.symbols.saturating_sub(record.place).saturating_sub(1);
            write!(f, " {position}:{}", record.change)?;
        }
        Ok(())
    }
}

fn write_row(slip: &mut Slip, row: &str) -> anyhow::Result<()> {
    for symbol in row.split(',') {
        slip.write(symbol.parse::<u8>()?)
            .map_err(|_| anyhow!("a symbol that the slip refuses"))?;
    }
    Ok(())
}

// A single - is no place.
fn doubt_places(slip: &mut Slip, places: &str) -> anyhow::Result<()> {
    if places == "-" {
        return Ok(());
    }
    for place in places.split(',') {
        slip.doubt(place.parse::<usize>()?)
            .map_err(|_| anyhow!("a place that the slip refuses"))?;
    }
    Ok(())
}

fn listed(
    outcome: Result<(usize, usize), CodeFault>,
    lent: &[Record],
) -> Result<Found<'_>, CodeFault> {
    let (written, nonzero) = outcome?;
    Ok(Found {
        lent,
        written,
        nonzero,
    })
}

// The answer of a solve and of a settle, which have to list the same.
fn answer_by<C: Checksum>(heap: Global, slip: &mut Slip) -> anyhow::Result<String> {
    let mut work = vec![in heap; C::CorrectionField::ZERO; WORKING]?;
    let mut records = [BLANK; RECORDS];
    let outcome = solve::<C>(slip, &mut records, work.as_mut_slice());
    let solved = listed(outcome, &records);
    let list = write_outcome(heap, solved.map_err(refusal_number))?;
    let symbols = slip.len();
    let original = match solved {
        Ok(listing) => ByPosition { listing, symbols }.to_string(heap)?,
        Err(_) => String::from_str(heap, "none")?,
    };
    let settled = settle::<C>(slip, &mut records, work.as_mut_slice());
    if write_outcome(heap, listed(settled, &records).map_err(refusal_number))?.as_str()
        != list.as_str()
    {
        return Err(anyhow!("a settle that lists otherwise than a solve"));
    }
    let row = match settled {
        Ok(_) => WithCommas(slip.symbols()).to_string(heap)?,
        Err(_) => String::from_str(heap, "-")?,
    };
    Ok(format!(in heap; "{list} | {row} | {original}")?)
}

fn answer(heap: Global, command: &str) -> anyhow::Result<String> {
    let (code, rest) = command.split_once(' ').context("a command without a row")?;
    let (row, places) = rest.split_once(' ').context("a command without places")?;
    let mut slip = Slip::new();
    write_row(&mut slip, row)?;
    doubt_places(&mut slip, places)?;
    match code {
        "finish" => answer_by::<Finish>(heap, &mut slip),
        "sheet" => answer_by::<Bech32>(heap, &mut slip),
        _ => Err(anyhow!("an unknown code")),
    }
}

fn main(rt: HostRuntime) -> anyhow::Result<()> {
    replay(&rt, answer)
}
