// Products of polynomials as coefficient lists, term by term.
ghost use Rattle.std.specs.Prelude.{◌≡◌, ◌+◌, ◌^◌, ◌<◌, ◌≤◌, min, ◌++◌, length, drop};
ghost use Rattle.algebra.specs.Poly.{tab, coeff};
ghost use Rattle.algebra.specs.Series.{product_term as term_of};
ghost use Rattle.lists.specs.Faults.{answer_count, answer_list};
ghost use Rattle.lists.specs.Lists as spec;

use crate::fault::{ListFault, admit};
use crate::polynomial::top_power;
use fields::Field;

/// Term n of the product of two lists.
pub fn product_term<F: Field>(p: &[F], q: &[F], n: usize) -> F
    ensures { result ≡ term_of F.field p.now (coeff F.field q.now) n }
{
    let mut sum = F::ZERO;
    for (i, a) in p.iter().enumerate() {
        let Some(rest) = n.checked_sub(i) else {
            return sum;
        };
        if let Some(b) = q.get(rest) {
            sum = sum.add(a.mul(*b));
        }
    }
    sum
}

// The n terms of the product of two lists from a power on, written at the front of a third.
pub(crate) fn series_product<F: Field>(p: &[F], q: &[F], from: usize, n: usize, out: &mut [F])
    requires room { n ≤ length out.old }
    requires terms { from + n < 2 ^ 64 }
    ensures { out.new ≡ tab n (λ j. term_of F.field p.now (coeff F.field q.now) (from + j))
        ++ drop n out.old }
{
    for (j, entry) in out[..n].iter_mut().enumerate() {
        *entry = product_term(p, q, from + j);
    }
}

/// The product of a and b from power 0 to the sum of their degrees plus 1, cut at d; it answers how many entries.
pub fn mul_mod_x_d<F: Field>(a: &[F], b: &[F], d: usize, out: &mut [F]) -> Result<usize, ListFault>
    ensures answer { result ≡ answer_count (min (length a.now) (length b.now))
        (spec.mul_mod_x_d F.field a.now b.now d) out.old }
    ensures answered { out.new ≡ answer_list (min (length a.now) (length b.now))
        (spec.mul_mod_x_d F.field a.now b.now d) out.old }
{
    let uncut = top_power(a).saturating_add(top_power(b)).saturating_add(2);
    let n = admit(a.len().min(b.len()), d.min(uncut), out.len())?;
    series_product(a, b, 0, n, out);
    Ok(n)
}

/// The terms of a times s that all coefficients of a reach, or one ZERO where s is too short to have any; it answers how
/// many entries.
pub fn convolution<F: Field>(a: &[F], s: &[F], out: &mut [F]) -> Result<usize, ListFault>
    ensures answer { result ≡ answer_count (length a.now)
        (spec.convolution F.field a.now s.now) out.old }
    ensures answered { out.new ≡ answer_list (length a.now)
        (spec.convolution F.field a.now s.now) out.old }
{
    let power = top_power(a);
    let terms = s.len().saturating_sub(power);
    let n = admit(a.len(), terms.max(1), out.len())?;
    if terms == 0 {
        out[0] = F::ZERO;
        return Ok(n);
    }
    series_product(a, s, power, terms, out);
    Ok(n)
}
