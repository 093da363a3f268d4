// Outcomes of the functions that write their answer into a list that is lent to them.
ghost use Rattle.std.specs.Prelude.{◌≡◌, IfOk, take, string_bytes};
ghost use Rattle.replay_lists.specs.Answers.{shown, of_list};

use anyhow::Context;
use fields::Field;
use lists::ListFault;
use replay::elements::write_elements;
use replay::outcomes::write_refusal;
use sheet::refusal_number;
use std::alloc::Global;

/// The outcome is how many entries were written at the front of the list that was lent.
pub fn write_front<F: Field>(
    heap: Global,
    outcome: Result<usize, ListFault>,
    lent: &[F],
) -> anyhow::Result<String>
    ensures { IfOk result (λ text. string_bytes text ≡ shown (λ n. of_list F.numbers (take n lent.now)) outcome) }
{
    match outcome {
        Ok(count) => {
            let entries = lent.get(..count).context("more entries than were lent")?;
            write_elements(heap, entries)
        }
        Err(fault) => write_refusal(heap, refusal_number(fault)),
    }
}
