// The register that generates given terms.
use crate::outcomes::write_front;
use fields::Field;
use lists::berlekamp_massey;
use replay::elements::read_elements;
use std::alloc::Global;

/// Answers the terms with the connection list of the shortest register that generates them.
pub fn answer_register<F: Field>(heap: Global, terms: &str) -> anyhow::Result<String> {
    let terms: Vec<F> = read_elements(heap, terms)?;
    let entries = terms.len().saturating_add(1);
    let mut answer = vec![in heap; F::ZERO; entries]?;
    let mut second = vec![in heap; F::ZERO; entries.saturating_mul(2)]?;
    let outcome = berlekamp_massey(
        terms.as_slice(),
        answer.as_mut_slice(),
        second.as_mut_slice(),
    );
    write_front(heap, outcome, answer.as_slice())
}
