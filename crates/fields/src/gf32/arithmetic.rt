// GF(32) is a field, and a field above itself. Products and inverses go by logarithms to the base t.
ghost use Rattle.std.specs.List.{range_with_len};
ghost use Rattle.std.specs.Prelude.{◌≡◌, map, refl};
ghost use Rattle.fields.specs.Gf32.{gf32, gf32_numbers, gf32_generator, fe_decides};
ghost use Rattle.fields.specs.Laws.Gf32.{gf32_cyclic, gf32_characteristic_two};
ghost use Rattle.std.proofs.lemmas.Bool.Decides.{Decides-at};

use super::Fe32;
use super::logarithms::{logarithm, power_of_t};
use crate::fault::FieldFault;
use crate::field::{ExtensionField, Field};

/// How many elements there are but ZERO.
const ORDER: usize = 31;

static ORDER_FACTORS: [usize; 2] = [1, 31];

#[tactic(auto, unfolding(crate::specs::Gf32::gf32, crate::specs::Gf32::gf32_numbers), using(crate::specs::Gf32::fe_path))]
impl Field for Fe32 {
    ghost field = { gf32 };

    ghost numbers = { gf32_numbers };

    ghost ZERO = { gf32.𝟘 };

    ghost ONE = { gf32.𝟙 };

    ghost GENERATOR = { gf32_generator };

    ghost MULTIPLICATIVE_ORDER = { 31 };

    const ZERO: Fe32 = Fe32 { value: 0 };

    const ONE: Fe32 = Fe32 { value: 1 };

    const GENERATOR: Fe32 = Fe32 { value: 2 };

    const MULTIPLICATIVE_ORDER: usize = ORDER;

    ghost zero_is = { refl };

    ghost one_is = { refl };

    ghost cyclic = { gf32_cyclic };

    ghost characteristic_two = { gf32_characteristic_two };

    ghost equality = { λ x y b e. Decides-at _ _ e (fe_decides x y) };

    fn order_factors<'a>() -> &'a [usize] {
        &ORDER_FACTORS
    }

    fn add(self, other: Fe32) -> Fe32 {
        Fe32 {
            value: self.value ^ other.value,
        }
    }

    fn mul(self, other: Fe32) -> Fe32 {
        if self.value == 0 || other.value == 0 {
            return Fe32::ZERO;
        }
        power_of_t((logarithm(self) + logarithm(other)) % ORDER)
    }

    fn neg(self) -> Fe32 {
        self
    }

    fn multiplicative_inverse(self) -> Result<Fe32, FieldFault> {
        if self.value == 0 {
            return Err(FieldFault::Zero);
        }
        Ok(power_of_t((ORDER - logarithm(self)) % ORDER))
    }

    fn to_number(self) -> u16 {
        u16::from(self.value)
    }

    fn from_number(number: u16) -> Option<Fe32> {
        // Not by `then`, whose closure would need a clause of its own for the bound of an element's number.
        if number < 32 {
            Some(Fe32 {
                value: number as u8,
            })
        } else {
            None
        }
    }

    fn small() {}
}

impl ExtensionField for Fe32 {
    type BaseField = Fe32;

    ghost lifted = { λ x. x };

    fn lift(base: Fe32) -> Fe32 {
        base
    }

    fn drop_to_base(self) -> Option<Fe32> {
        Some(self)
    }

    fn lift_laws() {}
}

impl Fe32 {
    /// All elements in the order of their numbers.
    #[tactic(auto, unfolding(crate::specs::Gf32::gf32_numbers))]
    pub fn elements() -> [Fe32; 32]
        ensures { map gf32_numbers.number result ≡ range_with_len 0 32 }
    {
        [
            Fe32::Q,
            Fe32::P,
            Fe32::Z,
            Fe32::R,
            Fe32::Y,
            Fe32::_9,
            Fe32::X,
            Fe32::_8,
            Fe32::G,
            Fe32::F,
            Fe32::_2,
            Fe32::T,
            Fe32::V,
            Fe32::D,
            Fe32::W,
            Fe32::_0,
            Fe32::S,
            Fe32::_3,
            Fe32::J,
            Fe32::N,
            Fe32::_5,
            Fe32::_4,
            Fe32::K,
            Fe32::H,
            Fe32::C,
            Fe32::E,
            Fe32::_6,
            Fe32::M,
            Fe32::U,
            Fe32::A,
            Fe32::_7,
            Fe32::L,
        ]
    }
}
