// A sealed row as text: twelve symbols in groups of four.
ghost use Rattle.std.specs.Prelude.{◌≡◌};
ghost use Rattle.sheet.specs.Groups.{in_groups};

use crate::characters::{Case, write_character};

/// Writes a row in three groups of four, with a space between two groups. A number above 31 stands for no symbol, and is
/// written as a question mark.
pub fn write_groups(symbols: &[u8; 12], case: Case) -> [u8; 14]
    ensures { result ≡ in_groups case symbols.now }
{
    let mut text = [b' '; 14];
    for (i, symbol) in symbols.iter().enumerate() {
        text[i + i / 4] = write_character(*symbol, case).unwrap_or(b'?');
    }
    text
}
