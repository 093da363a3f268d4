// Syndromes: the residue of a slip's row less the target, at the roots of the generator polynomial. They depend on the
// row's changes alone.
ghost use Rattle.std.specs.Prelude.{◌≡◌, ◌+◌, ◌<◌, map, length};
ghost use Rattle.algebra.specs.Code.{bound};
ghost use Rattle.algebra.specs.Field.{pow};
ghost use Rattle.algebra.specs.Poly.{eval, tab};
ghost use Rattle.algebra.specs.Rows.{syndrome};
ghost use Rattle.book.specs.Book.{row};
ghost use Rattle.slip.specs.Sealing.{elements_of};

use checksum::Checksum;
use fields::powers::powers;
use fields::{ExtensionField, Field};
use lists::polynomial::evaluate_lifted;
use slip::Slip;

// The values of a list at consecutive powers of an element, from an exponent on.
fn values_at_powers<E: ExtensionField>(list: &[E::BaseField], a: E, first: usize, out: &mut [E])
    requires { 0 < length list.now }
    ensures { out.new ≡ tab (length out.old) (λ j. eval E.field (map E.lifted list.now) (pow E.field a (first + j))) }
{
    let mut power = powers(a).nth(first);
    for value in out.iter_mut() {
        *value = evaluate_lifted(list, power).unwrap();
        power = a.mul(power);
    }
}

// The syndromes of a slip's row, as many as the bound.
#[tactic(auto, using(checksum::proofs::Sizes::engine_fits))]
pub(crate) fn syndromes<C: Checksum>(slip: &Slip, out: &mut [C::CorrectionField])
    requires { length out.old ≡ bound C.code }
    ensures { out.new ≡ tab (bound C.code) (syndrome C.SymbolField.field C.CorrectionField.field C.CorrectionField.lifted C.code (elements_of C.SymbolField.numbers (row slip.now))) }
{
    C::laws();
    C::SymbolField::small();
    let mut engine = slip.engine::<C>();
    engine.subtract_from_target();
    engine.negate();
    let (first, _) = C::ROOT_EXPONENTS;
    values_at_powers(engine.residue(), C::ROOT_GENERATOR, first, out);
}
