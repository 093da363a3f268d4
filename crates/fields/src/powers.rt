// Powers of an element, its multiplicative order, and how cursors over its powers begin.
ghost use Rattle.std.specs.Prelude.{◌≡◌, ℕ, ◌+◌, ◌-◌};
ghost use Rattle.algebra.specs.Field.{pow};
ghost use Rattle.algebra.specs.Poly.{tab};
ghost use Rattle.fields.specs.Cursors.{power_ahead, remaining_powers};
ghost use Rattle.fields.specs.Powers.{inverse_power, powi, IsOrderOf};

use crate::cursor::{Powers, PowersRange};
use crate::fault::FieldFault;
use crate::field::Field;
use crate::monoid::{Product, repeat};

// x to the power n, by squaring: n times x in the monoid of products.
#[tactic(auto, using(crate::proofs::Monoids::repeated_product))]
pub(crate) fn by_squaring<F: Field>(x: F, n: usize) -> F
    ensures { result ≡ pow F.field x n }
{
    repeat(Product(x), n).0
}

// The inverse's power, refused for ZERO.
fn inverse_power<F: Field>(x: F, n: usize) -> Result<F, FieldFault>
    ensures { result ≡ inverse_power F.field x n }
{
    Ok(by_squaring(x.multiplicative_inverse()?, n))
}

/// x to the power n: ONE for the exponent 0, and the inverse's power for a negative one.
pub fn powi<F: Field>(x: F, n: i64) -> Result<F, FieldFault>
    ensures { result ≡ powi F.field x n }
{
    if n == i64::MIN {
        Err(FieldFault::Exponent)
    } else if n < 0 {
        inverse_power(x, -n as usize)
    } else {
        Ok(by_squaring(x, n as usize))
    }
}

/// The least positive exponent at which x's power is ONE: the first such divisor of the field's order. ZERO has none.
pub fn multiplicative_order<F: Field>(x: F) -> Result<usize, FieldFault>
    ensures { IsOrderOf F.field x result }
{
    if x == F::ZERO {
        return Err(FieldFault::Zero);
    }
    let mut divisors = F::order_factors().iter();
    let order = loop {
        let divisor = *divisors.next().unwrap();
        if by_squaring(x, divisor) == F::ONE {
            break divisor;
        }
    };
    Ok(order)
}

/// The powers of x, from ONE on.
pub fn powers<F: Field>(x: F) -> Powers<F>
    ensures { (k : ℕ) → power_ahead F.field result k ≡ pow F.field x k }
{
    Powers {
        base: x,
        next: F::ONE,
    }
}

/// The powers of x from the first exponent to the last; none if the first is above the last.
pub fn powers_range<F: Field>(x: F, first: usize, last: usize) -> PowersRange<F>
    ensures { remaining_powers F.field result
        ≡ tab (last + 1 - first) (λ k. pow F.field x (first + k)) }
{
    PowersRange {
        powers: Powers {
            base: x,
            next: by_squaring(x, first),
        },
        after: last.checked_sub(first),
    }
}
