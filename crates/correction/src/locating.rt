// From syndromes to locators: the erasures are folded out of the syndromes, the shortest register of what is left locates
// the errors, and its product with the erasures' locator is the locator of both. Each list is written at the front of a
// part of the working list, and lent on from there. That it has an entry each step tells the next, which asks for it.
ghost use Rattle.std.specs.Prelude.{◌≡◌, ◌+◌, ◌-◌, ◌*◌, ◌<◌, ◌≤◌, min, length, take, ◌≢◌};
ghost use Rattle.algebra.specs.Decode.{error_locator, errata_locator, errata_evaluator};
ghost use Rattle.algebra.specs.Field.{pow};
ghost use Rattle.algebra.specs.Poly.{coeff, eval};
ghost use Rattle.algebra.specs.Rows.{count_true, positions};
ghost use Rattle.algebra.specs.Series.{deriv, times_linear, locator};
ghost use Rattle.lists.specs.Registers.{connection_list};
ghost use Rattle.lists.specs.Lists as spec;

use fields::Field;
use fields::arithmetic::difference;
use lists::berlekamp_massey;
use lists::polynomial::formal_derivative;
use lists::products::{convolution, mul_mod_x_d};
use std::mem;

/// What decoding finds: the error locator, and the evaluator and the derivative of the locator of errors and erasures.
pub(crate) struct Located<'a, E> {
    pub(crate) errors: &'a [E],
    pub(crate) evaluator: &'a [E],
    pub(crate) derivative: &'a [E],
}

// The list, its last entry aside, times 1 - x z.
fn times_linear<F: Field>(list: &mut [F], x: F)
    requires { 0 < length list.old }
    ensures { list.new ≡ times_linear F.field x (take (length list.old - 1) list.old) }
{
    let (top, list) = list.split_last_mut().unwrap();
    let mut below = F::ZERO;
    for entry in list.iter_mut() {
        let next = difference(*entry, x.mul(below));
        below = mem::replace(entry, next);
    }
    *top = difference(F::ZERO, x.mul(below));
}

// The product of 1 - a^p z over the positions p that are marked, the last place being position 0.
fn erasure_locator<'a, F: Field>(marks: &[bool], a: F, list: &'a mut [F]) -> &'a [F]
    requires { count_true marks.now < length list.old }
    ensures list { result.now ≡ locator F.field (pow F.field a) (positions marks.now) }
    ensures size { length result.now ≡ count_true marks.now + 1 }
{
    list[0] = F::ONE;
    let mut len = 1;
    let mut power = F::ONE;
    for marked in marks.iter().rev() {
        if *marked {
            len += 1;
            times_linear(&mut list[..len], power);
        }
        power = a.mul(power);
    }
    &list[..len]
}

// The syndromes with the erasures folded out.
#[tactic(auto, using(crate::proofs::Sizes::few_convolved, crate::proofs::Sizes::some_convolved))]
fn folded_syndromes<'a, F: Field>(erasures: &[F], s: &[F], list: &'a mut [F]) -> &'a [F]
    requires given { 0 < length erasures.now }
    requires room { length s.now < length list.old }
    ensures list { result.now ≡ spec.convolution F.field erasures.now s.now }
    ensures some { 0 < length result.now }
{
    let n = convolution(erasures, s, list).unwrap();
    &list[..n]
}

// The connection list of the shortest register that generates the terms.
#[tactic(auto, using(crate::proofs::Sizes::some_connection))]
fn connection_list<'a, F: Field>(terms: &[F], list: &'a mut [F], second: &mut [F]) -> &'a [F]
    requires given { 0 < length terms.now }
    requires room { length terms.now < length list.old }
    requires second { 2 * (length terms.now + 1) ≤ length second.old }
    ensures list { result.now ≡ connection_list F.field terms.now }
    ensures some { 0 < length result.now }
{
    let n = berlekamp_massey(terms, list, second).unwrap();
    &list[..n]
}

// The product of two lists, cut at d.
#[tactic(auto, using(crate::proofs::Sizes::cut_product, crate::proofs::Sizes::few_product, crate::proofs::Sizes::some_product))]
fn product<'a, F: Field>(p: &[F], q: &[F], d: usize, list: &'a mut [F]) -> &'a [F]
    requires left { 0 < length p.now }
    requires right { 0 < length q.now }
    requires room { min d (length p.now + length q.now) ≤ length list.old }
    ensures list { result.now ≡ spec.mul_mod_x_d F.field p.now q.now d }
    ensures some { 0 < d → 0 < length result.now }
{
    let n = mul_mod_x_d(p, q, d, list).unwrap();
    &list[..n]
}

// The formal derivative of a list.
#[tactic(auto, using(crate::proofs::Sizes::few_derivative))]
fn derivative_of<'a, F: Field>(p: &[F], list: &'a mut [F]) -> &'a [F]
    requires given { 0 < length p.now }
    requires room { length p.now ≤ length list.old + 1 }
    ensures { result.now ≡ spec.formal_derivative F.field p.now }
{
    let n = formal_derivative(p, list).unwrap();
    &list[..n]
}

// What decoding the syndromes s finds, the marked places being erased. The working list is cut into parts of two entries
// more than there are syndromes, and the register's second list, which has twice as many.
#[tactic(auto, using(crate::proofs::Sizes::few_convolved))]
pub(crate) fn locate<'a, F: Field>(
    s: &[F],
    marks: &[bool],
    a: F,
    work: &'a mut [F],
) -> Located<'a, F>
    requires few { count_true marks.now ≤ length s.now }
    requires some { 1 ≤ length s.now }
    requires short { length s.now ≤ 16 }
    requires nonzero { a ≢ F.field.𝟘 }
    requires room { 8 * (length s.now + 2) ≤ length work.old }
    ensures errors { result.errors.now ≡ error_locator F.field (pow F.field a) (positions marks.now) (coeff F.field s.now) (length s.now) }
    ensures evaluator { (x : F) → eval F.field result.evaluator.now x ≡ eval F.field (errata_evaluator F.field (pow F.field a) (positions marks.now) (coeff F.field s.now) (length s.now)) x }
    ensures slopes { (x : F) → eval F.field result.derivative.now x ≡ eval F.field (deriv F.field (errata_locator F.field (pow F.field a) (positions marks.now) (coeff F.field s.now) (length s.now))) x }
    ensures some_errors { 0 < length result.errors.now }
    ensures some_values { 0 < length result.evaluator.now }
{
    let part = s.len() + 2;
    let (erasures, rest) = work.split_at_mut(part);
    let (terms, rest) = rest.split_at_mut(part);
    let (errors, rest) = rest.split_at_mut(part);
    let (second, rest) = rest.split_at_mut(2 * part);
    let (errata, rest) = rest.split_at_mut(part);
    let (evaluator, derivative) = rest.split_at_mut(part);
    let erasures = erasure_locator(marks, a, erasures);
    let terms = folded_syndromes(erasures, s, terms);
    let errors = connection_list(terms, errors, second);
    let errata = product(errors, erasures, usize::MAX, errata);
    Located {
        errors,
        evaluator: product(errata, s, s.len(), evaluator),
        derivative: derivative_of(errata, derivative),
    }
}
