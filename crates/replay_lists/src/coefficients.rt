// The operations on coefficient lists.
use crate::entries::{difference_of, pointwise, powers_to, sum};
use crate::outcomes::write_front;
use anyhow::{Context, anyhow};
use fields::Field;
use lists::find_nonzero_distinct_roots;
use lists::polynomial::{degree, evaluate, formal_derivative, leading_term};
use lists::products::{convolution, mul_mod_x_d};
use replay::commas::WithCommas;
use replay::elements::{ByNumber, read_element, read_elements};
use replay::outcomes::{write_outcome, write_refusal};
use sheet::refusal_number;
use std::alloc::Global;

fn derivative<F: Field>(heap: Global, list: &[F]) -> anyhow::Result<String> {
    let mut lent = vec![in heap; F::ZERO; list.len()]?;
    let outcome = formal_derivative(list, lent.as_mut_slice());
    write_front(heap, outcome, lent.as_slice())
}

// The entries of both together are the most that a product has, so that max cuts nothing off.
fn product<F: Field>(heap: Global, cut: &str, a: &[F], b: &[F]) -> anyhow::Result<String> {
    let room = a.len().saturating_add(b.len());
    let d = if cut == "max" {
        room
    } else {
        cut.parse::<usize>()?
    };
    let mut lent = vec![in heap; F::ZERO; room]?;
    let outcome = mul_mod_x_d(a, b, d, lent.as_mut_slice());
    write_front(heap, outcome, lent.as_slice())
}

fn convolved<F: Field>(heap: Global, a: &[F], s: &[F]) -> anyhow::Result<String> {
    let mut lent = vec![in heap; F::ZERO; s.len().max(1)]?;
    let outcome = convolution(a, s, lent.as_mut_slice());
    write_front(heap, outcome, lent.as_slice())
}

/// The indices at whose power of the base the list is ZERO.
// There are at most as many roots as elements other than ZERO, so that a count ends the loop, where a `while` would need a proof.
pub fn roots<F: Field>(heap: Global, list: &[F], base: F) -> anyhow::Result<String> {
    let mut cursor = match find_nonzero_distinct_roots(base) {
        Ok(cursor) => cursor,
        Err(fault) => return write_refusal(heap, refusal_number(fault)),
    };
    let mut indices: Vec<usize> = Vec::new(heap);
    for _ in 0..F::MULTIPLICATIVE_ORDER {
        match cursor.next(list) {
            Ok(Some(index)) => indices.push(index)?,
            Ok(None) => break,
            Err(fault) => return write_refusal(heap, refusal_number(fault)),
        }
    }
    Ok(WithCommas(indices.as_slice()).to_string(heap)?)
}

fn answer_of_one<F: Field>(heap: Global, operation: &str, list: &[F]) -> anyhow::Result<String> {
    match operation {
        "degree" => write_outcome(heap, degree(list).map_err(refusal_number)),
        "leading" => write_outcome(
            heap,
            leading_term(list).map(ByNumber).map_err(refusal_number),
        ),
        "deriv" => derivative(heap, list),
        _ => Err(anyhow!("an unknown operation of one argument")),
    }
}

fn answer_of_two<F: Field>(
    heap: Global,
    operation: &str,
    list: &[F],
    argument: &str,
) -> anyhow::Result<String> {
    match operation {
        "eval" => write_outcome(
            heap,
            evaluate(list, read_element(argument)?)
                .map(ByNumber)
                .map_err(refusal_number),
        ),
        "conv" => convolved(heap, list, read_elements(heap, argument)?.as_slice()),
        "roots" => roots(heap, list, read_element(argument)?),
        "add" => sum(heap, list, read_elements(heap, argument)?.as_slice()),
        "sub" => difference_of(heap, list, read_elements(heap, argument)?.as_slice()),
        "pointwise" => pointwise(heap, list, read_elements(heap, argument)?.as_slice()),
        _ => Err(anyhow!("an unknown operation of two arguments")),
    }
}

fn answer_product<F: Field>(heap: Global, arguments: &str) -> anyhow::Result<String> {
    let (cut, lists) = arguments
        .split_once(' ')
        .context("a product without lists")?;
    let (a, b) = lists.split_once(' ').context("a product of one list")?;
    let a: Vec<F> = read_elements(heap, a)?;
    let b: Vec<F> = read_elements(heap, b)?;
    product(heap, cut, a.as_slice(), b.as_slice())
}

fn answer_powers<F: Field>(heap: Global, arguments: &str) -> anyhow::Result<String> {
    let (x, n) = arguments
        .split_once(' ')
        .context("powers without an exponent")?;
    powers_to::<F>(heap, read_element(x)?, n.parse::<usize>()?)
}

/// Answers an operation and its arguments.
pub fn answer_list<F: Field>(heap: Global, command: &str) -> anyhow::Result<String> {
    let (operation, arguments) = command
        .split_once(' ')
        .context("an operation without arguments")?;
    if operation == "mulmod" {
        return answer_product::<F>(heap, arguments);
    }
    if operation == "from_powers" {
        return answer_powers::<F>(heap, arguments);
    }
    match arguments.split_once(' ') {
        Some((list, argument)) => {
            let list: Vec<F> = read_elements(heap, list)?;
            answer_of_two(heap, operation, list.as_slice(), argument)
        }
        None => {
            let list: Vec<F> = read_elements(heap, arguments)?;
            answer_of_one(heap, operation, list.as_slice())
        }
    }
}
