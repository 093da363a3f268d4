// Mending by a code: a search proposes records, and only what the checker accepts is listed.
ghost use Rattle.std.specs.Prelude.{◌≡◌, ◌≤◌, ◌++◌, ◌==◌, not, count_by, length, drop};
ghost use Rattle.std.specs.Result.{result_err};
ghost use Rattle.book.specs.Calls.{Follows, solve, settle, search_fault};
ghost use Rattle.book.specs.Mending.{nonzero_count};
ghost use Rattle.correction.specs.Answers.{FindsNear, ListsPattern, listed_count, search_answer, workspace_after};
ghost use Rattle.correction.specs.MendingSteps.Found.{SearchFinds};
ghost use Rattle.slip.specs.View.{IsHoldable};

use crate::checker::fits;
use crate::correction::bch_errors;
use crate::found::Found;
use crate::pattern::Pattern;
use crate::subtracting::mended;
use book::{CodeFault, Record};
use checksum::symbols::number;
use checksum::{Checksum, bound};
use fields::{ExtensionField, Field};
use slip::Slip;

/// Finds the row that is near a slip's: the pattern that makes it, and the slip with that row. No record is written: `records`
/// is how many there is room for.
pub fn find<C: Checksum>(
    slip: &Slip,
    records: usize,
    work: &mut [C::CorrectionField],
) -> Result<Found, CodeFault>
    ensures found { FindsNear C.rows records (length work.old) slip.now result }
    ensures working { work.new ≡ workspace_after C.CorrectionField.field result work.old }
{
    C::laws();
    let pattern = search::<C>(slip, records, work)?;
    let nonzero = count_changes(pattern.records(), number::<C>(C::SymbolField::ZERO));
    let mended = mended::<C>(slip, pattern.records());
    Ok(Found {
        pattern,
        nonzero,
        mended,
    })
}

/// Solve: lists the changes from the near row at the front of the caller's records, and answers how many they are and how
/// many of them change something, two numbers that callers take apart at once. The slip stays as it is.
pub fn solve<C: Checksum>(
    slip: &Slip,
    records: &mut [Record],
    work: &mut [C::CorrectionField],
) -> Result<(usize, usize), CodeFault>
    ensures follows { Follows slip.now (solve C.rows (length records.old) (length work.old))
        (search_answer result records.new) slip.now }
    ensures pattern { ListsPattern C.rows slip.now result records.new }
    ensures past { drop (listed_count result) records.new ≡ drop (listed_count result) records.old }
    ensures working { work.new ≡ workspace_after C.CorrectionField.field result work.old }
{
    let found = find::<C>(slip, records.len(), work)?;
    list(found.pattern.records(), records);
    Ok((found.pattern.records().len(), found.nonzero))
}

/// Settle: as solve, and the slip then holds the near row, nothing doubted.
pub fn settle<C: Checksum>(
    slip: &mut Slip,
    records: &mut [Record],
    work: &mut [C::CorrectionField],
) -> Result<(usize, usize), CodeFault>
    ensures follows { Follows slip.old (settle C.rows (length records.old) (length work.old))
        (search_answer result records.new) slip.new }
    ensures pattern { ListsPattern C.rows slip.old result records.new }
    ensures past { drop (listed_count result) records.new ≡ drop (listed_count result) records.old }
    ensures working { work.new ≡ workspace_after C.CorrectionField.field result work.old }
{
    let found = find::<C>(slip, records.len(), work)?;
    let listed = found.pattern.records();
    list(listed, records);
    let answer = (listed.len(), found.nonzero);
    *slip = found.mended;
    Ok(answer)
}

// The records that lead to the near row. Where a row is near, its changes are proposed: a proposal that does not fit says
// that there is none.
fn search<C: Checksum>(
    slip: &Slip,
    records: usize,
    work: &mut [C::CorrectionField],
) -> Result<Pattern, CodeFault>
    ensures found { SearchFinds C.rows records (length work.old) slip.now result }
    ensures working { work.new ≡ workspace_after C.CorrectionField.field result work.old }
{
    C::laws();
    C::CorrectionField::lift_laws();
    can_mend::<C>(slip, records, work.len())?;
    bch_errors::<C>(slip, work)
        .filter(|proposal| fits::<C>(slip, proposal.records()))
        .ok_or(CodeFault::Unfit)
}

// Whether a slip may be mended, whatever its symbols are, with lists of some lengths being lent, and if not, why.
fn can_mend<C: Checksum>(slip: &Slip, records: usize, work: usize) -> Result<(), CodeFault>
    ensures fault { result_err result ≡ search_fault C.rows records work slip.now }
    ensures holdable { IsHoldable slip.now }
{
    C::laws();
    let bound = bound::<C>();
    if slip.len() <= C::CHECKSUM_LENGTH {
        return Err(CodeFault::Short);
    }
    if slip.len() > C::CODE_LENGTH {
        return Err(CodeFault::Long);
    }
    if records < bound {
        return Err(CodeFault::Records);
    }
    if work < 12 * (bound + 2) {
        return Err(CodeFault::Working);
    }
    if slip.doubts() > bound {
        return Err(CodeFault::Doubts);
    }
    Ok(())
}

// Writes a pattern's records at the front of others.
fn list(found: &[Record], records: &mut [Record])
    requires { length found.now ≤ length records.old }
    ensures { records.new ≡ found.now ++ drop (length found.now) records.old }
{
    records[..found.len()].copy_from_slice(found);
}

// How many records change something.
fn count_changes(records: &[Record], nothing: u8) -> usize
    ensures { result ≡ count_by (λ c. not (c.change == nothing)) records.now }
{
    records
        .iter()
        .filter(|record| record.change != nothing)
        .count()
}
