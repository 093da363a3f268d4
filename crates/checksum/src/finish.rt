// The finish code, which seals the rows of a finish: four check symbols over GF(32), a bound of 4, rows of up to 31 symbols.
ghost use Rattle.std.specs.Prelude.{◌≡◌, refl};
ghost use Rattle.algebra.specs.Code.{checks};
ghost use Rattle.checksum.specs.Finish.{finish, finish_rows};

use crate::checksum::Checksum;
use fields::Fe32;

/// The name of the finish code. It has no value: a code is an argument of type.
pub enum Finish {}

#[tactic(auto, unfolding(crate::specs::Finish::finish, fields::specs::Gf32::gf32))]
impl Checksum for Finish {
    type SymbolField = Fe32;

    type CorrectionField = Fe32;

    ghost code = { finish };

    ghost CHECKSUM_LENGTH = { checks finish };

    ghost CODE_LENGTH = { finish.limit };

    ghost ROOT_GENERATOR = { finish.root };

    ghost ROOT_EXPONENTS = { (finish.first, finish.last) };

    const CHECKSUM_LENGTH: usize = 4;

    const CODE_LENGTH: usize = 31;

    const ROOT_GENERATOR: Fe32 = Fe32::Z;

    const ROOT_EXPONENTS: (usize, usize) = (1, 4);

    ghost checksum_length_is = { refl };

    ghost code_length_is = { refl };

    ghost root_generator_is = { refl };

    ghost root_exponents_are = { refl };

    ghost rows = { finish_rows };

    ghost rows_are = { refl };

    // x^4 + 30 x^3 + 7 x^2 + 24 x + 19
    fn generator(power: usize) -> Fe32 {
        match power {
            0 => Fe32::N,
            1 => Fe32::C,
            2 => Fe32::_8,
            3 => Fe32::_7,
            4 => Fe32::P,
            _ => Fe32::Q,
        }
    }

    fn target_residue(power: usize) -> Fe32 {
        match power {
            0 => Fe32::P,
            _ => Fe32::Q,
        }
    }

    #[tactic(auto, using(crate::proofs::FinishLaws::finish_lawful), unfolding(fields::specs::Gf32::gf32_numbers))]
    fn laws() {}
}
