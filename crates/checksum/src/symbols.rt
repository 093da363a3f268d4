// A code's symbols and their numbers: the alphabet of every code has 32.
ghost use Rattle.std.specs.Prelude.{◌≡◌, ◌<◌, ◌≤◌, Some, None};

use crate::checksum::Checksum;
use fields::Field;

/// The number of a symbol. The cast loses nothing, as the alphabet has 32 symbols.
pub fn number<C: Checksum>(symbol: C::SymbolField) -> u8
    ensures number { result ≡ C.SymbolField.numbers.number symbol }
    ensures below { result < 32 }
{
    C::laws();
    symbol.to_number() as u8
}

/// The symbol that a number stands for, none from 32 on.
pub fn element<C: Checksum>(number: u8) -> Option<C::SymbolField>
    ensures below { number < 32 → result ≡ Some (C.SymbolField.numbers.element number) }
    ensures past { 32 ≤ number → result ≡ None }
{
    C::laws();
    C::SymbolField::from_number(u16::from(number))
}
