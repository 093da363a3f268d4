// Monoids, and a value joined n times. The sums of a field are a monoid, where that is a multiple, and so are its products,
// where it is a power.
ghost use Rattle.std.specs.Prelude.{◌≡◌};
ghost use Rattle.fields.specs.Monoid.{IsMonoid, repeat, sum_unit, sum_of, sum_laws, product_unit, product_of, product_laws};

use crate::field::Field;

/// Values with an operation that may be grouped in any way, and with a value that changes no other.
pub trait Monoid: Copy {
    // The value that changes no other.
    ghost neutral: { Self };

    ghost op: { Self → Self → Self };

    ghost laws: { IsMonoid neutral op };

    fn unit() -> Self
        ensures { result ≡ neutral };

    fn join(self, other: Self) -> Self
        ensures { result ≡ op self other };
}

/// An element, as one that is added.
#[derive(Clone, Copy)]
pub struct Sum<F>(pub F);

impl<F: Field> Monoid for Sum<F> {
    ghost neutral = { sum_unit F.field };

    ghost op = { sum_of F.field };

    ghost laws = { sum_laws F.field };

    fn unit() -> Sum<F> {
        Sum(F::ZERO)
    }

    fn join(self, other: Sum<F>) -> Sum<F> {
        Sum(self.0.add(other.0))
    }
}

/// An element, as one that is multiplied.
#[derive(Clone, Copy)]
pub struct Product<F>(pub F);

impl<F: Field> Monoid for Product<F> {
    ghost neutral = { product_unit F.field };

    ghost op = { product_of F.field };

    ghost laws = { product_laws F.field };

    fn unit() -> Product<F> {
        Product(F::ONE)
    }

    fn join(self, other: Product<F>) -> Product<F> {
        Product(self.0.mul(other.0))
    }
}

/// x joined n times, by doubling x while the count is halved.
pub fn repeat<M: Monoid>(x: M, n: usize) -> M
    ensures { result ≡ repeat M.neutral M.op x n }
{
    let mut result = M::unit();
    let mut doubled = x;
    let mut left = n;
    while left > 0 {
        if left % 2 == 1 {
            result = result.join(doubled);
        }
        doubled = doubled.join(doubled);
        left /= 2;
    }
    result
}
