// What is proved of every code, whatever its fields: each function's contract is a theorem, in the words of the algebra,
// and its body asks the code for the laws that the theorem rests on. None of them uses that x + x is ZERO. They differ in their
// clause alone, which is the theorem: each has a name of its own, by which it is cited.
ghost use Rattle.algebra.specs.Rows.{HasSyndromesOfChanges, HasDistance, HasOneNear, KeepsRowUnderDoubt, MendsNearRows};

use crate::checksum::Checksum;
use fields::ExtensionField;

/// At each root of the generator polynomial, the residue of a row less the target is the value of the row's changes from
/// any sound row of its length.
pub fn syndromes_stand<C: Checksum>()
    ensures { HasSyndromesOfChanges C.SymbolField.field
        C.CorrectionField.field C.CorrectionField.lifted C.code }
{
    C::laws();
    C::CorrectionField::lift_laws();
}

/// The designed distance: sound rows that are equally long, not above the limit and not equal have a Hamming distance above the
/// bound.
pub fn distance_stands<C: Checksum>()
    ensures { HasDistance C.SymbolField.field
        C.CorrectionField.field C.CorrectionField.lifted C.code }
{
    C::laws();
    C::CorrectionField::lift_laws();
}

/// Within the limit at most one sound row is so near that twice the errors and the doubted places are within the bound.
pub fn one_near_stands<C: Checksum>()
    ensures { HasOneNear C.SymbolField.field
        C.CorrectionField.field C.CorrectionField.lifted C.code }
{
    C::laws();
    C::CorrectionField::lift_laws();
}

/// Within the limit, where a row is near and one more place is doubted, no other row is near.
pub fn one_more_doubt_stands<C: Checksum>()
    ensures { KeepsRowUnderDoubt C.SymbolField.field
        C.CorrectionField.field C.CorrectionField.lifted C.code }
{
    C::laws();
    C::CorrectionField::lift_laws();
}

/// Where a row is near, the register's connection list, its roots and Forney's values are that row's errors and changes.
pub fn mending_stands<C: Checksum>()
    ensures { MendsNearRows C.SymbolField.field
        C.CorrectionField.field C.CorrectionField.lifted C.code }
{
    C::laws();
    C::CorrectionField::lift_laws();
}
