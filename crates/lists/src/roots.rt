// A cursor over the roots of a list, among the powers of a base.
ghost use Rattle.std.specs.Prelude.{◌≡◌, ⊤, length};
ghost use Rattle.lists.specs.Faults.{unless_empty};
ghost use Rattle.lists.specs.Roots.{next_root, cursor_after, Seeks};

use crate::fault::ListFault;
use crate::polynomial::{not_empty, value_at};
use fields::Field;
use fields::powers::multiplicative_order;
use std::alloc::AllocError;
use std::marker::Model;

/// A cursor over the indices at whose power of a base a list is ZERO. It is passed a list at each step, so that it is no
/// `Iterator`.
#[derive_where(Copy)]
pub struct Roots<F: Field> {
    base: F,
    order: usize,
    next: usize,
    /// The base to the power of the next index.
    power: F,
}

// Clauses see which indices are yet to be tried. They tell the power too, so that a cursor can be copied.
impl<F: Field> Model for Roots<F> {
    ghost use Rattle.std.specs.Prelude.{◌≡◌, ◌≤◌};
    ghost use Rattle.std.proofs.Common.{sym};
    ghost use Rattle.algebra.specs.Field.{pow};
    ghost use Rattle.lists.specs.Roots.{Cursor};

    ghost Value = { Cursor F };

    ghost view = { λ r. record { base = r.base; next = r.next; order = r.order } };

    ghost invariant = { λ r. (r.next ≤ r.order) × (r.power ≡ pow F.field r.base r.next) };

    ghost inverse = { λ c. record { base = c.base; order = c.order; next = c.next; power = pow F.field c.base c.next } };

    ghost inverse_ok = { λ r kept i. record { base = r.base; order = r.order; next = r.next; power = sym kept.1 i } };
}

// By hand, since no law says that a field's `clone` answers the same element.
impl<F: Field> Clone for Roots<F> {
    ghost is_clone = { λ c r. r ≡ c };

    ghost is_infallible = { λ _. ⊤ };

    fn clone(&self) -> Result<Self, AllocError> {
        Ok(Roots {
            base: self.base,
            order: self.order,
            next: self.next,
            power: self.power,
        })
    }
}

/// A cursor over the indices below the base's multiplicative order.
pub fn find_nonzero_distinct_roots<F: Field>(base: F) -> Result<Roots<F>, ListFault>
    ensures { Seeks F.field base result }
{
    let order = multiplicative_order(base)?;
    Ok(Roots {
        base,
        order,
        next: 0,
        power: F::ONE,
    })
}

impl<F: Field> Roots<F> {
    /// The next index at which the list is ZERO, none past the last.
    pub fn next(&mut self, list: &[F]) -> Result<Option<usize>, ListFault>
        ensures answer { result ≡ unless_empty (length list.now)
            (next_root F.field list.now self.old) }
        ensures rest { self.new ≡ cursor_after self.old result }
    {
        not_empty(list)?;
        while self.next < self.order {
            let (index, power) = (self.next, self.power);
            self.next += 1;
            self.power = self.base.mul(power);
            if value_at(list, power) == F::ZERO {
                return Ok(Some(index));
            }
        }
        Ok(None)
    }
}
