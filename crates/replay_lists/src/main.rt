// Replays recorded answers on coefficient lists, lowest power first, and registers, over the field of SIZE elements. The
// commands:
//     P SIZE degree L        the degree of L
//     P SIZE leading L       the coefficient of the highest power that has one
//     P SIZE deriv L         its derivative
//     P SIZE eval L X        its value at the element X
//     P SIZE roots L BASE    the indices of the powers of BASE at which it is ZERO
//     P SIZE mulmod D A B    the product of A and B below the power D; max cuts nothing off
//     P SIZE conv A S        the convolution of A with S
//     P SIZE add A B         the sum of A and B
//     P SIZE sub A B         their difference
//     P SIZE pointwise A B   their product entry by entry
//     P SIZE from_powers X N the powers of the element X up to the exponent N
//     PL SIZE lift L         the list L over GF(32), lifted
//     PL SIZE eval L X       its value at the element X
//     PL SIZE roots L BASE   the indices of the powers of BASE at which it is ZERO
//     R SIZE S               the connection list of the shortest register that generates the terms S
#![tactic(auto)]

mod coefficients;
mod entries;
mod lifted;
mod outcomes;
mod registers;

use anyhow::{Context, anyhow};
use coefficients::answer_list;
use fields::{ExtensionField, Fe32, Fe1024, Fe32768};
use lifted::answer_lifted;
use registers::answer_register;
use replay::lines::replay;
use std::alloc::Global;

fn answer_in<E: ExtensionField>(
    heap: Global,
    letter: &str,
    command: &str,
) -> anyhow::Result<String> {
    match letter {
        "P" => answer_list::<E>(heap, command),
        "PL" => answer_lifted::<E>(heap, command),
        "R" => answer_register::<E>(heap, command),
        _ => Err(anyhow!("an unknown command")),
    }
}

fn answer(heap: Global, command: &str) -> anyhow::Result<String> {
    let (letter, rest) = command
        .split_once(' ')
        .context("a command without a field")?;
    let (size, rest) = rest
        .split_once(' ')
        .context("a command without an argument")?;
    match size {
        // A match in each program: what differs is an argument of type, which no value can carry.
        "32" => answer_in::<Fe32>(heap, letter, rest),
        "1024" => answer_in::<Fe1024>(heap, letter, rest),
        "32768" => answer_in::<Fe32768>(heap, letter, rest),
        _ => Err(anyhow!("an unknown field")),
    }
}

fn main(rt: HostRuntime) -> anyhow::Result<()> {
    replay(&rt, answer)
}
