// Polynomials as coefficient lists: degree, value and derivative.
ghost use Rattle.std.specs.Prelude.{◌≡◌, map, length};
ghost use Rattle.algebra.specs.Poly.{eval};
ghost use Rattle.lists.specs.Faults.{unless_empty, answer_count, answer_list};
ghost use Rattle.lists.specs.Lists as spec;

use crate::fault::{ListFault, admit};
use fields::arithmetic::multiple;
use fields::{ExtensionField, Field};

// Refuses a list with no entry.
pub(crate) fn not_empty<T>(list: &[T]) -> Result<(), ListFault>
    ensures { result ≡ unless_empty (length list.now) tt }
{
    if list.is_empty() {
        Err(ListFault::Empty)
    } else {
        Ok(())
    }
}

/// The degree of a list that may be empty: the highest power whose coefficient is not ZERO, else 0.
pub fn top_power<F: Field>(list: &[F]) -> usize
    ensures { result ≡ spec.degree F.field list.now }
{
    list.iter()
        .rposition(|coefficient| *coefficient != F::ZERO)
        .unwrap_or(0)
}

/// The degree: the highest power with a coefficient that is not ZERO, and 0 for a list of ZEROs.
pub fn degree<F: Field>(list: &[F]) -> Result<usize, ListFault>
    ensures { result ≡ unless_empty (length list.now) (spec.degree F.field list.now) }
{
    not_empty(list)?;
    Ok(top_power(list))
}

/// The coefficient of the highest power that has one other than ZERO, and ZERO for a list of ZEROs.
pub fn leading_term<F: Field>(list: &[F]) -> Result<F, ListFault>
    ensures { result ≡ unless_empty (length list.now) (spec.leading_term F.field list.now) }
{
    list.get(top_power(list)).copied().ok_or(ListFault::Empty)
}

// The value at x, by Horner's rule, of the list that `read` makes of each entry; ZERO for the empty list.
fn horner<T: Copy, F: Field, R: Fn(T) -> F>(list: &[T], x: F, read: R) -> F
    requires { R.IsAlwaysCallable read }
    ensures { (entry : T → F) → ((y : T) (r : F) → R.post read y r → r ≡ entry y) →
        result ≡ eval F.field (map entry list.now) x }
{
    list.iter()
        .rev()
        .fold(F::ZERO, |value, entry| read(*entry).add(x.mul(value)))
}

// The value at x, ZERO for the empty list.
pub(crate) fn value_at<F: Field>(list: &[F], x: F) -> F
    ensures { result ≡ eval F.field list.now x }
{
    horner(list, x, |entry| entry)
}

/// The value at x.
pub fn evaluate<F: Field>(list: &[F], x: F) -> Result<F, ListFault>
    ensures { result ≡ unless_empty (length list.now) (eval F.field list.now x) }
{
    not_empty(list)?;
    Ok(value_at(list, x))
}

/// The value of a list over the base at an element of the field above.
pub fn evaluate_lifted<E: ExtensionField>(list: &[E::BaseField], x: E) -> Result<E, ListFault>
    ensures { result ≡ unless_empty (length list.now) (eval E.field (map E.lifted list.now) x) }
{
    not_empty(list)?;
    Ok(horner(list, x, |entry| E::lift(entry)))
}

/// The formal derivative: as many entries as the degree; it answers how many.
pub fn formal_derivative<F: Field>(list: &[F], out: &mut [F]) -> Result<usize, ListFault>
    ensures answer { result ≡ answer_count (length list.now)
        (spec.formal_derivative F.field list.now) out.old }
    ensures answered { out.new ≡ answer_list (length list.now)
        (spec.formal_derivative F.field list.now) out.old }
{
    let n = admit(list.len(), top_power(list), out.len())?;
    // By index, and not by a `zip`: see docs/DECISIONS.md.
    for (i, entry) in out[..n].iter_mut().enumerate() {
        *entry = multiple(list[i + 1], i + 1);
    }
    Ok(n)
}
