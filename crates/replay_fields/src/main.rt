// Replays recorded answers of the fields' operations. A command is `F SIZE OPERATION ARGUMENTS`, for the field of that
// many elements, with each element by its number. The operations:
//     add sub mul div    of two elements
//     powi muli          of an element and a whole number
//     neg inv order      of an element
//     lift drop          of an element of GF(32), and to one; drop answers none where there is none
//     powers             of an element, from one exponent to another
//     powersnth          of an element and a number: the power that a cursor answers after so many others
//     rangenth           the same by a cursor from one exponent to another, none past the last
//     consts             of nothing: ZERO, ONE, the generator, the order and its divisors
// A refusal is written by its number.
#![tactic(auto)]

mod powers;

use anyhow::{Context, anyhow};
use fields::arithmetic::{difference, muli, quotient};
use fields::powers::{multiplicative_order, powi};
use fields::{ExtensionField, Fe32, Fe1024, Fe32768, Field};
use powers::{
    write_constants, write_optional, write_power_after, write_power_between, write_powers,
};
use replay::elements::{ByNumber, read_element, write_element};
use replay::lines::replay;
use replay::outcomes::write_outcome;
use sheet::refusal_number;
use std::alloc::Global;

fn answer_of_one<E: ExtensionField<BaseField = Fe32>>(
    heap: Global,
    operation: &str,
    argument: &str,
) -> anyhow::Result<String> {
    if operation == "lift" {
        return write_element(heap, E::lift(read_element(argument)?));
    }
    let element: E = read_element(argument)?;
    match operation {
        "neg" => write_element(heap, element.neg()),
        "inv" => write_outcome(
            heap,
            element
                .multiplicative_inverse()
                .map(ByNumber)
                .map_err(refusal_number),
        ),
        "order" => write_outcome(heap, multiplicative_order(element).map_err(refusal_number)),
        "drop" => write_optional(heap, element.drop_to_base()),
        _ => Err(anyhow!("an unknown operation of one argument")),
    }
}

fn answer_of_two<F: Field>(
    heap: Global,
    operation: &str,
    element: F,
    argument: &str,
) -> anyhow::Result<String> {
    match operation {
        "add" => write_element(heap, element.add(read_element(argument)?)),
        "sub" => write_element(heap, difference(element, read_element(argument)?)),
        "mul" => write_element(heap, element.mul(read_element(argument)?)),
        "div" => write_outcome(
            heap,
            quotient(element, read_element(argument)?)
                .map(ByNumber)
                .map_err(refusal_number),
        ),
        "powi" => write_outcome(
            heap,
            powi(element, argument.parse::<i64>()?)
                .map(ByNumber)
                .map_err(refusal_number),
        ),
        "muli" => write_element(heap, muli(element, argument.parse::<i64>()?)),
        "powersnth" => write_power_after(heap, element, argument.parse::<usize>()?),
        _ => Err(anyhow!("an unknown operation of two arguments")),
    }
}

// The numbers of a range of exponents, and the rest.
fn read_range(text: &str) -> anyhow::Result<(usize, usize)> {
    let (first, last) = text.split_once(' ').context("a range without an end")?;
    Ok((first.parse::<usize>()?, last.parse::<usize>()?))
}

fn answer_of_three<F: Field>(
    heap: Global,
    operation: &str,
    element: F,
    arguments: &str,
) -> anyhow::Result<String> {
    match operation {
        "powers" => {
            let (first, last) = read_range(arguments)?;
            write_powers(heap, element, first, last)
        }
        "rangenth" => {
            let (range, n) = arguments
                .rsplit_once(' ')
                .context("a range without a number")?;
            let (first, last) = read_range(range)?;
            write_power_between(heap, element, first, last, n.parse::<usize>()?)
        }
        _ => Err(anyhow!("an unknown operation of more arguments")),
    }
}

fn answer_in<E: ExtensionField<BaseField = Fe32>>(
    heap: Global,
    command: &str,
) -> anyhow::Result<String> {
    if command == "consts" {
        return write_constants::<E>(heap);
    }
    let (operation, arguments) = command
        .split_once(' ')
        .context("a command without an argument")?;
    match arguments.split_once(' ') {
        Some((first, rest)) => {
            let element: E = read_element(first)?;
            if rest.contains(' ') {
                answer_of_three(heap, operation, element, rest)
            } else {
                answer_of_two(heap, operation, element, rest)
            }
        }
        None => answer_of_one::<E>(heap, operation, arguments),
    }
}

fn answer(heap: Global, command: &str) -> anyhow::Result<String> {
    let rest = command
        .strip_prefix("F ")
        .context("a command that does not begin with F")?;
    let (size, rest) = rest
        .split_once(' ')
        .context("a command without an operation")?;
    match size {
        // A match in each program: what differs is an argument of type, which no value can carry.
        "32" => answer_in::<Fe32>(heap, rest),
        "1024" => answer_in::<Fe1024>(heap, rest),
        "32768" => answer_in::<Fe32768>(heap, rest),
        _ => Err(anyhow!("an unknown field")),
    }
}

fn main(rt: HostRuntime) -> anyhow::Result<()> {
    replay(&rt, answer)
}
