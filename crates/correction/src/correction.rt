// Correcting a slip's row by a code. The steps are those of BCH decoding with erasures: the syndromes, the locator of the
// erasures, the syndromes with the erasures folded out, the shortest register that generates these, whose connection list
// locates the errors, its roots, and at each position the change by Forney's formula.
ghost use Rattle.std.specs.Prelude.{◌≡◌, ◌+◌, ◌*◌, ◌≤◌, length, nat_le};
ghost use Rattle.algebra.specs.Code.{bound};
ghost use Rattle.book.specs.Book.{marks};
ghost use Rattle.correction.specs.Steps.Decoded.{Tells};
ghost use Rattle.correction.specs.Proposals.{Proposes};
ghost use Rattle.lists.specs.Faults.{zeros_if};
ghost use Rattle.slip.specs.View.{IsHoldable};

use crate::forney::Forney;
use crate::listing::{list_erasures, list_errors};
use crate::locating::{Located, locate};
use crate::pattern::Pattern;
use crate::syndromes::syndromes;
use checksum::{Checksum, bound};
use fields::{ExtensionField, Field};
use lists::fieldvec::clear;
use slip::Slip;

/// Proposes the records that mend the slip's row by a code. Wherever a row is near, they are the changes from it; where
/// none is, they may be anything, so a proposal is to be checked. The working list has 12 × (bound + 2) entries at least: it is
/// cut into parts from its front, which are lent on, and is all ZERO after. Nothing is proposed where it is shorter.
pub fn bch_errors<C: Checksum>(slip: &Slip, work: &mut [C::CorrectionField]) -> Option<Pattern>
    ensures proposes { Proposes C.rows slip.now (length work.old) result }
    ensures after { work.new ≡ zeros_if C.CorrectionField.field (nat_le (12 * (bound C.code + 2)) (length work.old)) work.old }
{
    C::laws();
    C::CorrectionField::lift_laws();
    let bound = bound::<C>();
    if work.len() < 12 * (bound + 2) {
        return None;
    }
    let (s, rest) = work.split_at_mut(bound);
    syndromes::<C>(slip, s);
    let proposal = propose::<C>(slip, s, rest);
    clear(work);
    proposal
}

// Proposes the records of the doubted places, and then those of the errors, from the syndromes s.
fn propose<C: Checksum>(
    slip: &Slip,
    s: &[C::CorrectionField],
    work: &mut [C::CorrectionField],
) -> Option<Pattern>
    requires syndromes { length s.now ≡ bound C.code }
    requires room { 8 * (length s.now + 2) ≤ length work.old }
    ensures tells { Tells C.CorrectionField.field C.CorrectionField.lifted C.SymbolField.numbers s.now (marks slip.now) C.code.root C.code.first result }
    ensures holdable { IsHoldable slip.now }
{
    C::laws();
    let marks = slip.marks();
    let doubts = slip.doubts();
    if doubts > s.len() {
        return None;
    }
    let root = C::ROOT_GENERATOR;
    let (first, _) = C::ROOT_EXPONENTS;
    let Located {
        errors,
        evaluator,
        derivative,
    } = locate(s, marks, root, work);
    // The register is as long as there are errors, whatever its list's degree is.
    if errors.len() - 1 > (s.len() - doubts) / 2 {
        return None;
    }
    let forney = Forney {
        evaluator,
        derivative,
        root,
        first,
    };
    let mut pattern = Pattern::new();
    list_erasures(&forney, marks, &mut pattern)?;
    list_errors(&forney, errors, marks.len(), &mut pattern)?;
    Some(pattern)
}
