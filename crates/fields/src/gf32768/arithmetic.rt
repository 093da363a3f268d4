// GF(32768) is a field above GF(32).
ghost use Rattle.std.specs.Prelude.{refl};
ghost use Rattle.fields.specs.Gf32768.{gf32768, gf32768_numbers, gf32768_generator, lift32768, fe32768_decides};
ghost use Rattle.fields.specs.Laws.Gf32768.{gf32768_cyclic, gf32768_characteristic_two};
ghost use Rattle.std.proofs.lemmas.Bool.Decides.{Decides-at};

use super::Fe32768;
use crate::fault::FieldFault;
use crate::field::{ExtensionField, Field};
use crate::gf32::Fe32;

static ORDER_FACTORS: [usize; 8] = [1, 7, 31, 151, 217, 1057, 4681, 32767];

#[tactic(auto, unfolding(crate::specs::Gf32768::gf32768_numbers, crate::specs::Gf32::gf32_numbers))]
impl Field for Fe32768 {
    ghost field = { gf32768 };

    ghost numbers = { gf32768_numbers };

    ghost ZERO = { gf32768.𝟘 };

    ghost ONE = { gf32768.𝟙 };

    ghost GENERATOR = { gf32768_generator };

    ghost MULTIPLICATIVE_ORDER = { 32767 };

    const ZERO: Fe32768 = Fe32768 {
        c0: Fe32::Q,
        c1: Fe32::Q,
        c2: Fe32::Q,
    };

    const ONE: Fe32768 = Fe32768 {
        c0: Fe32::P,
        c1: Fe32::Q,
        c2: Fe32::Q,
    };

    const GENERATOR: Fe32768 = Fe32768 {
        c0: Fe32::A,
        c1: Fe32::C,
        c2: Fe32::Q,
    };

    const MULTIPLICATIVE_ORDER: usize = 32767;

    ghost zero_is = { refl };

    ghost one_is = { refl };

    ghost cyclic = { gf32768_cyclic };

    ghost characteristic_two = { gf32768_characteristic_two };

    ghost equality = { λ x y b e. Decides-at _ _ e (fe32768_decides x y) };

    fn order_factors<'a>() -> &'a [usize] {
        &ORDER_FACTORS
    }

    #[tactic(auto, unfolding(crate::specs::Gf32768::gf32768))]
    fn add(self, other: Fe32768) -> Fe32768 {
        Fe32768 {
            c0: self.c0.add(other.c0),
            c1: self.c1.add(other.c1),
            c2: self.c2.add(other.c2),
        }
    }

    // ζ³ goes to the first two parts, ζ⁴ to the last two.
    #[tactic(auto, unfolding(crate::specs::Gf32768::gf32768))]
    fn mul(self, other: Fe32768) -> Fe32768 {
        let linear = self.c0.mul(other.c1).add(self.c1.mul(other.c0));
        let square = self.c0.mul(other.c2).add(self.c1.mul(other.c1));
        let cube = self.c1.mul(other.c2).add(self.c2.mul(other.c1));
        let fourth = self.c2.mul(other.c2);
        Fe32768 {
            c0: self.c0.mul(other.c0).add(cube),
            c1: linear.add(cube.add(fourth)),
            c2: square.add(self.c2.mul(other.c0).add(fourth)),
        }
    }

    #[tactic(auto, unfolding(crate::specs::Gf32768::gf32768))]
    fn neg(self) -> Fe32768 {
        Fe32768 {
            c0: self.c0.neg(),
            c1: self.c1.neg(),
            c2: self.c2.neg(),
        }
    }

    // The first cofactors of the matrix of multiplication by this element, over its determinant, which is ZERO for ZERO
    // alone.
    fn multiplicative_inverse(self) -> Result<Fe32768, FieldFault> {
        let sum = self.c0.add(self.c2);
        let first = sum.mul(sum).add(self.c1.mul(self.c1.add(self.c2)).neg());
        let second = self.c2.mul(self.c2).add(self.c0.mul(self.c1).neg());
        let third = self.c1.mul(self.c1).add(self.c2.mul(sum).neg());
        let determinant = self
            .c0
            .mul(first)
            .add(self.c2.mul(second))
            .add(self.c1.mul(third));
        let scale = determinant.multiplicative_inverse()?;
        Ok(Fe32768 {
            c0: first.mul(scale),
            c1: second.mul(scale),
            c2: third.mul(scale),
        })
    }

    fn to_number(self) -> u16 {
        self.c0.to_number() + 32 * self.c1.to_number() + 1024 * self.c2.to_number()
    }

    fn from_number(number: u16) -> Option<Fe32768> {
        let c0 = Fe32::from_number(number % 32)?;
        let c1 = Fe32::from_number(number / 32 % 32)?;
        let c2 = Fe32::from_number(number / 1024)?;
        Some(Fe32768 { c0, c1, c2 })
    }

    fn small() {}
}

impl ExtensionField for Fe32768 {
    type BaseField = Fe32;

    ghost lifted = { lift32768 };

    fn lift(base: Fe32) -> Fe32768 {
        Fe32768 {
            c0: base,
            c1: Fe32::ZERO,
            c2: Fe32::ZERO,
        }
    }

    fn drop_to_base(self) -> Option<Fe32> {
        (self == Fe32768::lift(self.c0)).then_some(self.c0)
    }

    #[tactic(auto, using(crate::specs::Laws::Gf32768::lift32768_lifts))]
    fn lift_laws() {}
}
