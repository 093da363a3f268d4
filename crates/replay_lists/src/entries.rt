// The operations entry by entry, and powers.
use crate::outcomes::write_front;
use fields::Field;
use lists::fieldvec::{add, from_powers, mul_assign_pointwise, sub};
use std::alloc::Global;

// More entries of powers are not lent: no list has as many as there can be exponents.
const POWERS: usize = 1024;

/// The sum of two lists.
pub fn sum<F: Field>(heap: Global, a: &[F], b: &[F]) -> anyhow::Result<String> {
    let mut lent = vec![in heap; F::ZERO; a.len().max(b.len())]?;
    let outcome = add(a, b, lent.as_mut_slice());
    write_front(heap, outcome, lent.as_slice())
}

/// The difference of two lists.
pub fn difference_of<F: Field>(heap: Global, a: &[F], b: &[F]) -> anyhow::Result<String> {
    let mut lent = vec![in heap; F::ZERO; a.len().max(b.len())]?;
    let outcome = sub(a, b, lent.as_mut_slice());
    write_front(heap, outcome, lent.as_slice())
}

/// The product of two lists entry by entry.
pub fn pointwise<F: Field>(heap: Global, a: &[F], b: &[F]) -> anyhow::Result<String> {
    let mut lent = vec![in heap; F::ZERO; a.len()]?;
    lent.as_mut_slice().copy_from_slice(a);
    let outcome = mul_assign_pointwise(lent.as_mut_slice(), b);
    write_front(heap, outcome, lent.as_slice())
}

/// The powers of x up to the exponent n.
pub fn powers_to<F: Field>(heap: Global, x: F, n: usize) -> anyhow::Result<String> {
    let mut lent = vec![in heap; F::ZERO; n.saturating_add(1).min(POWERS)]?;
    let outcome = from_powers(x, n, lent.as_mut_slice());
    write_front(heap, outcome, lent.as_slice())
}
