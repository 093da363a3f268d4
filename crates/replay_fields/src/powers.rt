// Powers of an element, and what a field has fixed.
ghost use Rattle.std.specs.Prelude.{◌≡◌, IfOk, map, string_bytes, decimal};
ghost use Rattle.std.specs.List.{slice_get as item};
ghost use Rattle.algebra.specs.Field.{pow};
ghost use Rattle.replay.specs.Elements.{decimal_list};
ghost use Rattle.replay_fields.specs.Answers.{or_none, powers_between, constants};

use fields::Field;
use fields::powers::{powers, powers_range};
use replay::commas::WithCommas;
use replay::elements::{ByNumber, write_element, write_elements};
use std::alloc::Global;

/// The element's number, or none.
pub fn write_optional<F: Field>(heap: Global, element: Option<F>) -> anyhow::Result<String>
    ensures { IfOk result (λ text. string_bytes text ≡ or_none F.numbers element) }
{
    match element {
        Some(element) => write_element(heap, element),
        None => Ok(String::from_str(heap, "none")?),
    }
}

/// The powers of x from the first exponent to the last.
pub fn write_powers<F: Field>(
    heap: Global,
    x: F,
    first: usize,
    last: usize,
) -> anyhow::Result<String>
    ensures { IfOk result (λ text. string_bytes text ≡ decimal_list (map F.numbers.number (powers_between F.field x first last))) }
{
    let powers: Vec<F> = powers_range(x, first, last).collect(heap)?;
    write_elements(heap, powers.as_slice())
}

/// The power of x that a cursor over all of them answers after n others.
pub fn write_power_after<F: Field>(heap: Global, x: F, n: usize) -> anyhow::Result<String>
    ensures { IfOk result (λ text. string_bytes text ≡ decimal (F.numbers.number (pow F.field x n))) }
{
    write_element(heap, powers(x).nth(n))
}

/// The power of x that a cursor from the first exponent to the last answers after n others.
pub fn write_power_between<F: Field>(
    heap: Global,
    x: F,
    first: usize,
    last: usize,
    n: usize,
) -> anyhow::Result<String>
    ensures { IfOk result (λ text. string_bytes text ≡ or_none F.numbers (item (powers_between F.field x first last) n)) }
{
    write_optional(heap, powers_range(x, first, last).nth(n))
}

/// ZERO, ONE, the generator, how many elements there are, the order of those but ZERO, and its divisors.
pub fn write_constants<F: Field>(heap: Global) -> anyhow::Result<String>
    ensures { IfOk result (λ text. string_bytes text ≡ constants F.field F.numbers F.GENERATOR F.MULTIPLICATIVE_ORDER) }
{
    let zero = ByNumber(F::ZERO);
    let one = ByNumber(F::ONE);
    let generator = ByNumber(F::GENERATOR);
    let order = F::MULTIPLICATIVE_ORDER;
    let size = order + 1;
    let factors = WithCommas(F::order_factors()).to_string(heap)?;
    Ok(format!(in heap;
        "zero={zero} one={one} gen={generator} size={size} order={order} factors={factors}"
    )?)
}
