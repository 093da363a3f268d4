// Forney's equation (G. D. Forney, 'On decoding BCH codes', 1965): the change at a position, from the evaluator of the
// syndromes and the derivative of the locator.
ghost use Rattle.std.specs.Prelude.{◌≡◌, ℕ, ◌<◌, ◌≤◌, length, Some, ◌≢◌};
ghost use Rattle.algebra.specs.Field.{pow};
ghost use Rattle.algebra.specs.Poly.{eval};
ghost use Rattle.correction.specs.Steps.Forney.{forney, HasValue};

use fields::arithmetic::quotient;
use fields::powers::powers;
use fields::{ExtensionField, Field};
use lists::polynomial::evaluate;

/// What the equation reads: the evaluator, the derivative, and where the roots of the generator polynomial begin, which
/// are powers of one element.
#[derive(Drop)]
pub(crate) struct Forney<'a, E: ExtensionField> {
    pub(crate) evaluator: &'a [E],
    pub(crate) derivative: &'a [E],
    pub(crate) root: E,
    pub(crate) first: usize,
    ghost nonzero: { root ≢ E.field.𝟘 },
    ghost some: { 0 < length evaluator.now },
    ghost small: { E.BaseField.numbers.size ≤ 256 },
}

impl<E: ExtensionField> Forney<'_, E> {
    ghost use Rattle.correction.specs.Steps.Changes.{HasChangeAt};

    // The change at a locator x, none where the derivative is ZERO at 1/x:
    //
    //                 evaluator(1/x)
    //     -  -------------------------------
    //        x^(first - 1) derivative(1/x)
    //
    // where first is the first exponent of the generator's roots.
    fn value(&self, x: E) -> Option<E>
        requires { x ≢ E.field.𝟘 }
        ensures { (eval E.field self.now.derivative.now (E.field.inv x) ≢ E.field.𝟘) → result ≡ Some (forney E.field self.now.evaluator.now self.now.derivative.now x self.now.first) }
    {
        let back = x.multiplicative_inverse().unwrap();
        let value = evaluate(self.evaluator, back).unwrap();
        let slope = evaluate(self.derivative, back).ok()?;
        quotient(x.mul(value).neg(), slope.mul(powers(x).nth(self.first))).ok()
    }

    // The change at a position as a symbol's number, or none if it is not a symbol.
    pub(crate) fn change_at(&self, position: usize) -> Option<u8>
        ensures { (y : ℕ) → HasChangeAt self.now position y → result ≡ Some y }
    {
        E::lift_laws();
        let symbol = self.value(powers(self.root).nth(position))?.drop_to_base()?;
        Some(symbol.to_number() as u8)
    }
}
