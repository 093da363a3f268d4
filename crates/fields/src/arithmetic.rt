// Differences, quotients and multiples in any field, from the methods of its interface.
ghost use Rattle.std.specs.Prelude.{◌≡◌};
ghost use Rattle.algebra.specs.Field.{multiple, int_multiple};
ghost use Rattle.fields.specs.Powers.{quotient};

use crate::fault::FieldFault;
use crate::field::Field;
use crate::monoid::{Sum, repeat};

/// a - b.
pub fn difference<F: Field>(a: F, b: F) -> F
    ensures { result ≡ F.field.add a (F.field.neg b) }
{
    a.add(b.neg())
}

/// a / b, refused if b is ZERO.
pub fn quotient<F: Field>(a: F, b: F) -> Result<F, FieldFault>
    ensures { result ≡ quotient F.field a b }
{
    Ok(a.mul(b.multiplicative_inverse()?))
}

/// n times x, by sums alone, in any characteristic.
#[tactic(auto, using(crate::proofs::Monoids::repeated_sum))]
pub fn multiple<F: Field>(x: F, n: usize) -> F
    ensures { result ≡ multiple F.field x n }
{
    repeat(Sum(x), n).0
}

/// n times x, for any signed n. Twice an element is ZERO, so that only n's last bit counts.
pub fn muli<F: Field>(x: F, n: i64) -> F
    ensures { result ≡ int_multiple F.field x n }
{
    if n % 2 == 0 { F::ZERO } else { x }
}
