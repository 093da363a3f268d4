// Mends one row by the library: a sealed row of twelve symbols, of which one was not understood and another one is wrong.
// Where five are doubted, there are too few left to mend it from, and it is refused.
#![tactic(auto)]

use book::{BLANK, CallFault, Record};
use checksum::Finish;
use correction::lengths::{MOST_RECORDS, MOST_WORK};
use correction::settle;
use fields::{Fe32, Field};
use sheet::refusal_number;
use slip::Slip;
use std::io;
use std::io::Write;

const ROW: [u8; 12] = [4, 20, 20, 12, 15, 0, 0, 6, 10, 17, 16, 18];

// Writes a row on a slip, doubts some places of it, and settles it by the finish code.
fn mend(
    slip: &mut Slip,
    row: &[u8],
    doubted: &[usize],
    records: &mut [Record],
) -> Result<(usize, usize), CallFault> {
    for symbol in row {
        slip.write(*symbol)?;
    }
    for place in doubted {
        slip.doubt(*place)?;
    }
    let mut work = [Fe32::ZERO; MOST_WORK];
    Ok(settle::<Finish>(slip, records, &mut work)?)
}

fn show(out: &mut impl Write, doubted: &[usize]) -> io::Result<()> {
    let mut slip = Slip::new();
    let mut records = [BLANK; MOST_RECORDS];
    match mend(&mut slip, &ROW, doubted, &mut records) {
        Ok((written, changed)) => {
            writeln!(out, "records {written}, changed symbols {changed}")?;
            for Record { place, change } in records.iter().take(written) {
                writeln!(out, "place {place} less {change}")?;
            }
            write!(out, "row")?;
            for symbol in slip.symbols() {
                write!(out, " {symbol}")?;
            }
            writeln!(out)
        }
        Err(fault) => writeln!(out, "refused {}", refusal_number(fault)),
    }
}

fn main(rt: HostRuntime) -> anyhow::Result<()> {
    show(&mut rt.stdout(), &[5])?;
    show(&mut rt.stdout(), &[0, 1, 2, 3, 5])?;
    Ok(())
}
