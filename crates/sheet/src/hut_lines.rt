// A typed line, and its output line.
ghost use Rattle.std.specs.Prelude.{◌≡◌, IfErr, IfOk, Ok, Result};
ghost use Rattle.book.specs.Calls.{Follows, IsDecided, refused, settle};
ghost use Rattle.book.specs.declared.call_fault.CallFault.TheVariants.{Code as by_code};
ghost use Rattle.script.specs.Script.{book_answer};
ghost use Rattle.script.specs.declared.script.Answer.TheVariants.{Listed};
ghost use Rattle.sheet.specs.Shown.{OnlySays, ShowsLine, finish_numeric, outcome_at, report_of};
ghost use Rattle.sheet.specs.declared.reading.Reading.{Reading};
ghost use Rattle.sheet.specs.declared.sheet_fault.Cause.{Cause};

use crate::output_line::{Report, write_output_line};
use crate::reading::Reading;
use crate::reading_off::{read_off, whole_seconds};
use crate::refusal::Refusal;
use crate::sheet_fault::{Cause, SheetFault};
use crate::taking::take_line;
use book::{CallFault, CodeFault};
use checksum::Finish;
use script::call::call;
use script::{Answer, Call, CodeSet, Lent, Listing, Reply, Single};
use slip::Slip;
use std::marker::PhantomData;

// What a settle is lent. No code asks for more.
const LENT: Lent = Lent {
    records: 16,
    working: 216,
};

/// The output line of a typed line: the line's number, the number of its refusal or 0, how many symbols were changed, the
/// sail number, and the seconds since midnight. Of a refused line the last three are 0.
pub fn finish_line(number: usize, line: &[u8]) -> [u8; 31]
    ensures { ShowsLine finish_numeric number line.now result }
{
    let report = report_of(number, read_finish(number, line));
    let mut text = [0; 31];
    write_output_line(&report, &mut text);
    text
}

/// The finish that a line of a sheet says, or why the sheet refuses the line.
pub fn read_finish(number: usize, line: &[u8]) -> Result<Reading, SheetFault>
    ensures { (outcome : Result Reading Cause) × OnlySays finish_numeric line.now outcome
        × (result ≡ outcome_at number outcome) }
{
    finish(line).map_err(|cause| SheetFault {
        line: number,
        cause,
    })
}

// The one place where a refusal of the hut becomes a number.
fn report_of(number: usize, outcome: Result<Reading, SheetFault>) -> Report
    ensures { result ≡ report_of number outcome }
{
    match outcome {
        Ok(reading) => Report {
            line: number,
            refusal: 0,
            changes: reading.changes,
            sail: reading.sail,
            seconds: whole_seconds(reading.tenths),
        },
        Err(fault) => Report {
            line: fault.line,
            refusal: Refusal::from(fault).number,
            changes: 0,
            sail: 0,
            seconds: 0,
        },
    }
}

// Takes a line onto a slip, settles the slip, and reads it off.
fn finish(line: &[u8]) -> Result<Reading, Cause>
    ensures { OnlySays finish_numeric line.now result }
{
    let mut slip = Slip::new();
    take_line(&mut slip, line)?;
    let listing = mend(&mut slip)?;
    let (sail, tenths) = read_off(slip.symbols())?;
    Ok(Reading {
        changes: listing.nonzero(),
        sail,
        tenths,
    })
}

// Mends a slip by the finish code.
fn mend(slip: &mut Slip) -> Result<Listing, CodeFault>
    ensures listed { IfOk result (λ listing.
        Follows slip.old (settle finish_numeric 16 216) (book_answer (Ok (Listed listing))) slip.new) }
    ensures refused { IfErr result (λ fault.
        Follows slip.old (settle finish_numeric 16 216) (refused (by_code fault)) slip.new) }
    ensures decided { IsDecided (settle finish_numeric 16 216) }
{
    match settle(slip) {
        Ok(Answer::Listed(listing)) => Ok(listing),
        Err(CallFault::Code(fault)) => Err(fault),
        // A settle lists, or the code refuses it.
        Ok(Answer::Done) => unreachable(),
        Err(CallFault::Slip(_)) => unreachable(),
    }
}

// The call. A workspace is made for it: every line is finished by itself.
fn settle(slip: &mut Slip) -> Reply
    ensures follows { Follows slip.old (settle finish_numeric 16 216) (book_answer result) slip.new }
    ensures decided { IsDecided (settle finish_numeric 16 216) }
{
    let code = Single::<Finish> { code: PhantomData };
    call(
        slip,
        Call::Settle(code, LENT),
        &mut Single::<Finish>::workspace(),
    )
}
