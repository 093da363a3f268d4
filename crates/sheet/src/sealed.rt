// A boat's line, sealed by the finish code.
ghost use Rattle.std.specs.Prelude.{◌≡◌, length};
ghost use Rattle.sheet.specs.Sealed.{sealed_line, sealed_row};
ghost use Rattle.book.specs.Book.{row};

use crate::fault::LineFault;
use crate::groups::write_groups;
use crate::reading_off::read_off;
use crate::taking::{before_slash, line_case, take_known_line};
use checksum::Finish;
use slip::Slip;

/// How many symbols stand for a boat and a time.
const BOAT_AND_TIME: usize = 8;

/// The sealed row of a boat's line, as text in the line's own case: the eight symbols and the four that seal them, in three
/// groups of four. Refused where the line is, where it holds other than eight symbols, and where the hut would refuse the
/// sealed row for its time.
pub fn seal_line(line: &[u8]) -> Result<[u8; 14], LineFault>
    ensures { result ≡ sealed_line line.now }
{
    let mut slip = Slip::new();
    take_known_line(&mut slip, line)?;
    if slip.len() != BOAT_AND_TIME {
        return Err(LineFault::SymbolCount);
    }
    let sealed = sealed_row(&mut slip);
    read_off(&sealed)?;
    let groups = before_slash(line);
    Ok(write_groups(&sealed, line_case(groups)))
}

// The row of a slip that holds a boat and a time, sealed: the code has room for it.
fn sealed_row(slip: &mut Slip) -> [u8; 12]
    requires { length slip.old ≡ 8 }
    ensures { result ≡ sealed_row (row slip.old) }
{
    slip.seal::<Finish>().unwrap();
    slip.symbols().try_into().unwrap()
}
