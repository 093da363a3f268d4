// Lists entry by entry: sums, products, powers, and lists lifted into the field above.
ghost use Rattle.std.specs.Prelude.{◌≡◌, ◌+◌, ◌≤◌, min, ◌++◌, map, length, replicate};
ghost use Rattle.algebra.specs.Field.{pow};
ghost use Rattle.algebra.specs.Poly.{tab, coeff, poly_add, poly_sub};
ghost use Rattle.lists.specs.Faults.{answer_count, answer_list};
ghost use Rattle.lists.specs.Pointwise.{pointwise};
ghost use Rattle.lists.specs.Steps.Combined.{Computes, by_entries};

use crate::fault::{ListFault, admit};
use fields::arithmetic::difference;
use fields::{ExtensionField, Field};

// The entry at a place, ZERO past the list's end.
fn entry<F: Field>(list: &[F], i: usize) -> F
    ensures { result ≡ coeff F.field list.now i }
{
    list.get(i).copied().unwrap_or(F::ZERO)
}

// What an operation answers for the entries at each place of two lists, as long as the longer.
fn combined<F: Field, O: Fn(F, F) -> F>(
    a: &[F],
    b: &[F],
    out: &mut [F],
    of: O,
) -> Result<usize, ListFault>
    requires { O.IsAlwaysCallable of }
    ensures answer { (h : F → F → F) → Computes O.Fn of h →
        result ≡ answer_count (min (length a.now) (length b.now)) (by_entries F.field h a.now b.now) out.old }
    ensures answered { (h : F → F → F) → Computes O.Fn of h →
        out.new ≡ answer_list (min (length a.now) (length b.now)) (by_entries F.field h a.now b.now) out.old }
{
    let n = admit(a.len().min(b.len()), a.len().max(b.len()), out.len())?;
    // By place, since past the end of the shorter list its entry is ZERO.
    for (i, place) in out[..n].iter_mut().enumerate() {
        *place = of(entry(a, i), entry(b, i));
    }
    Ok(n)
}

/// a + b, as long as the longer; it answers how many entries.
pub fn add<F: Field>(a: &[F], b: &[F], out: &mut [F]) -> Result<usize, ListFault>
    ensures answer { result ≡ answer_count (min (length a.now) (length b.now))
        (poly_add F.field a.now b.now) out.old }
    ensures answered { out.new ≡ answer_list (min (length a.now) (length b.now))
        (poly_add F.field a.now b.now) out.old }
{
    combined(a, b, out, |x, y| x.add(y))
}

/// a - b, as long as the longer; it answers how many entries.
pub fn sub<F: Field>(a: &[F], b: &[F], out: &mut [F]) -> Result<usize, ListFault>
    ensures answer { result ≡ answer_count (min (length a.now) (length b.now))
        (poly_sub F.field a.now b.now) out.old }
    ensures answered { out.new ≡ answer_list (min (length a.now) (length b.now))
        (poly_sub F.field a.now b.now) out.old }
{
    combined(a, b, out, |x, y| difference(x, y))
}

/// The powers of x up to the exponent n: n + 1 entries. Only their room is tested, as no list is passed that may be empty.
pub fn from_powers<F: Field>(x: F, n: usize, out: &mut [F]) -> Result<usize, ListFault>
    ensures answer { result ≡ answer_count 1 (tab (n + 1) (pow F.field x)) out.old }
    ensures answered { out.new ≡ answer_list 1 (tab (n + 1) (pow F.field x)) out.old }
{
    if out.len() <= n {
        return Err(ListFault::Short);
    }
    let mut power = F::ONE;
    for place in out[..=n].iter_mut() {
        *place = power;
        power = x.mul(power);
    }
    Ok(n + 1)
}

/// Each entry is multiplied by the other list's entry at its place, by ZERO past that list's end.
pub fn mul_assign_pointwise<F: Field>(list: &mut [F], other: &[F]) -> Result<usize, ListFault>
    ensures answer { result ≡ answer_count (min (length list.old) (length other.now))
        (pointwise F.field list.old other.now) list.old }
    ensures answered { list.new ≡ answer_list (min (length list.old) (length other.now))
        (pointwise F.field list.old other.now) list.old }
{
    let n = admit(list.len().min(other.len()), list.len(), list.len())?;
    for (i, place) in list.iter_mut().enumerate() {
        *place = place.mul(entry(other, i));
    }
    Ok(n)
}

/// The list's entries lifted into the field above; it answers how many.
pub fn lift<E: ExtensionField>(list: &[E::BaseField], out: &mut [E]) -> Result<usize, ListFault>
    ensures answer { result ≡ answer_count (length list.now) (map E.lifted list.now) out.old }
    ensures answered { out.new ≡ answer_list (length list.now) (map E.lifted list.now) out.old }
{
    let n = admit(list.len(), list.len(), out.len())?;
    // By index, and not by a `zip`: see docs/DECISIONS.md.
    for (i, place) in out[..n].iter_mut().enumerate() {
        *place = E::lift(list[i]);
    }
    Ok(n)
}

/// Every entry becomes ZERO.
pub fn clear<F: Field>(list: &mut [F])
    ensures { list.new ≡ replicate (length list.old) F.field.𝟘 }
{
    // Not `fill`, which needs that an element's `clone` cannot fail: a field does not promise that.
    let zero = F::ZERO;
    list.fill_with(|| zero);
}
