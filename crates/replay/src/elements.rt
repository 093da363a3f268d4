// Elements of a field as recorded answers have them: each by its number, and lists with commas between.
ghost use Rattle.std.specs.Prelude.{◌≡◌, Some, map, IfOk, string_bytes, decimal};
ghost use Rattle.replay.specs.Elements.{element_in, decimal_list, IsReadable, ReadsAs};
ghost use Rattle.std.specs.Result.{OkIff};

use crate::commas::WithCommas;
use anyhow::Context;
use fields::Field;
use std::alloc::Global;
use std::fmt;
use std::fmt::Display;

/// An element, printed by its number.
#[derive(Clone, Copy)]
pub struct ByNumber<F>(pub F);

impl<F: Field> Display for ByNumber<F> {
    ghost output = { λ it. Some (decimal (F.numbers.number it.0)) };

    fn fmt<W: fmt::Write>(&self, f: &mut fmt::Formatter<W>) -> fmt::Result {
        let number = self.0.to_number();
        write!(f, "{number}")
    }
}

/// The element whose number the text is, refused where it is no number below the field's size.
pub fn read_element<F: Field>(text: &str) -> anyhow::Result<F>
    ensures { OkIff result (IsReadable F.numbers text.now) (element_in F.numbers text.now) }
{
    F::from_number(text.parse::<u16>()?).context("a number above the field's")
}

/// The element's number, where memory suffices.
pub fn write_element<F: Field>(heap: Global, element: F) -> anyhow::Result<String>
    ensures { IfOk result (λ text. string_bytes text ≡ decimal (F.numbers.number element)) }
{
    Ok(ByNumber(element).to_string(heap)?)
}

/// The elements between commas. A single - is the empty list.
pub fn read_elements<F: Field>(heap: Global, text: &str) -> anyhow::Result<Vec<F>>
    ensures { IfOk result (λ elements. ReadsAs F.numbers text.now elements.items) }
{
    let mut elements = Vec::new(heap);
    if text == "-" {
        return Ok(elements);
    }
    for part in text.split(',') {
        elements.push(read_element(part)?)?;
    }
    Ok(elements)
}

/// The elements' numbers with commas between, where memory suffices. A single - is the empty list.
pub fn write_elements<F: Field>(heap: Global, elements: &[F]) -> anyhow::Result<String>
    ensures { IfOk result (λ text. string_bytes text ≡ decimal_list (map F.numbers.number elements.now)) }
{
    // The numbers, and not the elements by their numbers, since the clause speaks of a list of numbers.
    let numbers: Vec<u16> = elements
        .iter()
        .map(|element| element.to_number())
        .collect(heap)?;
    Ok(WithCommas(numbers.as_slice()).to_string(heap)?)
}
