// The sheet code: the checksum of bech32 strings, by BIP 173 (P. Wuille, G. Maxwell, 2017). Six check symbols over GF(32), with
// roots in GF(1024): a bound of 3, rows of up to 89 symbols.
ghost use Rattle.std.specs.Prelude.{◌≡◌, refl};
ghost use Rattle.algebra.specs.Code.{checks};
ghost use Rattle.checksum.specs.Bech32.{bech32, sheet_rows};

use crate::checksum::Checksum;
use fields::{Fe32, Fe1024};

/// The name of the sheet code. It has no value: a code is an argument of type.
pub enum Bech32 {}

#[tactic(auto, unfolding(crate::specs::Bech32::bech32, fields::specs::Gf32::gf32))]
impl Checksum for Bech32 {
    type SymbolField = Fe32;

    type CorrectionField = Fe1024;

    ghost code = { bech32 };

    ghost CHECKSUM_LENGTH = { checks bech32 };

    ghost CODE_LENGTH = { bech32.limit };

    ghost ROOT_GENERATOR = { bech32.root };

    ghost ROOT_EXPONENTS = { (bech32.first, bech32.last) };

    const CHECKSUM_LENGTH: usize = 6;

    const CODE_LENGTH: usize = 89;

    // 1 + 6ζ
    const ROOT_GENERATOR: Fe1024 = Fe1024 {
        c0: Fe32::P,
        c1: Fe32::X,
    };

    const ROOT_EXPONENTS: (usize, usize) = (24, 26);

    ghost checksum_length_is = { refl };

    ghost code_length_is = { refl };

    ghost root_generator_is = { refl };

    ghost root_exponents_are = { refl };

    ghost rows = { sheet_rows };

    ghost rows_are = { refl };

    // x^6 + 29 x^5 + 22 x^4 + 20 x^3 + 21 x^2 + 29 x + 18
    fn generator(power: usize) -> Fe32 {
        match power {
            0 => Fe32::J,
            1 => Fe32::A,
            2 => Fe32::_4,
            3 => Fe32::_5,
            4 => Fe32::K,
            5 => Fe32::A,
            6 => Fe32::P,
            _ => Fe32::Q,
        }
    }

    fn target_residue(power: usize) -> Fe32 {
        match power {
            0 => Fe32::P,
            _ => Fe32::Q,
        }
    }

    #[tactic(auto, using(crate::proofs::Bech32Laws::sheet_lawful), unfolding(fields::specs::Gf32::gf32_numbers))]
    fn laws() {}
}
