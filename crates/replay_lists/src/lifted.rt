// The operations on lists over the base of a field, in the field itself.
ghost use Rattle.std.specs.Prelude.{◌≡◌, IfOk, map, length, string_bytes};
ghost use Rattle.algebra.specs.Poly.{eval};
ghost use Rattle.lists.specs.Faults.{unless_empty};
ghost use Rattle.replay_lists.specs.Answers.{shown, of_number};

use crate::coefficients::roots;
use crate::outcomes::write_front;
use anyhow::{Context, anyhow};
use fields::ExtensionField;
use lists::fieldvec::lift;
use lists::polynomial::evaluate_lifted;
use replay::elements::{ByNumber, read_element, read_elements};
use replay::outcomes::{write_outcome, write_refusal};
use sheet::refusal_number;
use std::alloc::Global;

fn lifted<E: ExtensionField>(heap: Global, list: &[E::BaseField]) -> anyhow::Result<String> {
    let mut lent = vec![in heap; E::ZERO; list.len()]?;
    let outcome = lift(list, lent.as_mut_slice());
    write_front(heap, outcome, lent.as_slice())
}

fn value<E: ExtensionField>(heap: Global, list: &[E::BaseField], x: E) -> anyhow::Result<String>
    ensures { IfOk result (λ text. string_bytes text ≡ shown (of_number E.Field.numbers) (unless_empty (length list.now) (eval E.Field.field (map E.lifted list.now) x))) }
{
    write_outcome(
        heap,
        evaluate_lifted(list, x)
            .map(ByNumber)
            .map_err(refusal_number),
    )
}

// A cursor over roots has one field, so that the list is lifted first.
fn roots_above<E: ExtensionField>(
    heap: Global,
    list: &[E::BaseField],
    base: E,
) -> anyhow::Result<String> {
    let mut lent = vec![in heap; E::ZERO; list.len()]?;
    match lift(list, lent.as_mut_slice()) {
        Ok(_) => roots(heap, lent.as_slice(), base),
        Err(fault) => write_refusal(heap, refusal_number(fault)),
    }
}

/// Answers an operation and its arguments.
pub fn answer_lifted<E: ExtensionField>(heap: Global, command: &str) -> anyhow::Result<String> {
    let (operation, arguments) = command
        .split_once(' ')
        .context("an operation without arguments")?;
    let (list, argument) = arguments.split_once(' ').unwrap_or((arguments, ""));
    let list: Vec<E::BaseField> = read_elements(heap, list)?;
    let list = list.as_slice();
    match operation {
        "lift" => lifted::<E>(heap, list),
        "eval" => value::<E>(heap, list, read_element(argument)?),
        "roots" => roots_above::<E>(heap, list, read_element(argument)?),
        _ => Err(anyhow!("an unknown operation on a list of the base")),
    }
}
