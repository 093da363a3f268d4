// Worked examples as theorems: a table of what the definitions compute, proved equal to what is expected of them, and books with
// what solve answers to each.
#![tactic(auto)]

ghost use Rattle.std.specs.Prelude.{◌≡◌};
ghost use Rattle.examples.specs.Mended.{ExamplesMend};
ghost use Rattle.examples.specs.Table.{computed_rows, expected_rows};

/// Every row of the table stands.
pub fn examples_stand()
    ensures { computed_rows ≡ expected_rows }
{}

/// Every example of mending stands: solve and settle answer what is listed and leave the book that is listed, and nothing else;
/// and the row that is near is the listed one alone, or there is none.
pub fn mended_examples_stand()
    ensures { ExamplesMend }
{}
