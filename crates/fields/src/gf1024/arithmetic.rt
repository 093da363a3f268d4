// GF(1024) is a field above GF(32).
ghost use Rattle.std.specs.Prelude.{refl};
ghost use Rattle.fields.specs.Gf1024.{gf1024, gf1024_numbers, gf1024_generator, lift1024, fe1024_decides};
ghost use Rattle.fields.specs.Laws.Gf1024.{gf1024_cyclic, gf1024_characteristic_two};
ghost use Rattle.std.proofs.lemmas.Bool.Decides.{Decides-at};

use super::Fe1024;
use crate::fault::FieldFault;
use crate::field::{ExtensionField, Field};
use crate::gf32::Fe32;

static ORDER_FACTORS: [usize; 8] = [1, 3, 11, 31, 33, 93, 341, 1023];

#[tactic(auto, unfolding(crate::specs::Gf1024::gf1024_numbers, crate::specs::Gf32::gf32_numbers))]
impl Field for Fe1024 {
    ghost field = { gf1024 };

    ghost numbers = { gf1024_numbers };

    ghost ZERO = { gf1024.𝟘 };

    ghost ONE = { gf1024.𝟙 };

    ghost GENERATOR = { gf1024_generator };

    ghost MULTIPLICATIVE_ORDER = { 1023 };

    const ZERO: Fe1024 = Fe1024 {
        c0: Fe32::Q,
        c1: Fe32::Q,
    };

    const ONE: Fe1024 = Fe1024 {
        c0: Fe32::P,
        c1: Fe32::Q,
    };

    const GENERATOR: Fe1024 = Fe1024 {
        c0: Fe32::P,
        c1: Fe32::H,
    };

    const MULTIPLICATIVE_ORDER: usize = 1023;

    ghost zero_is = { refl };

    ghost one_is = { refl };

    ghost cyclic = { gf1024_cyclic };

    ghost characteristic_two = { gf1024_characteristic_two };

    ghost equality = { λ x y b e. Decides-at _ _ e (fe1024_decides x y) };

    fn order_factors<'a>() -> &'a [usize] {
        &ORDER_FACTORS
    }

    #[tactic(auto, unfolding(crate::specs::Gf1024::gf1024))]
    fn add(self, other: Fe1024) -> Fe1024 {
        Fe1024 {
            c0: self.c0.add(other.c0),
            c1: self.c1.add(other.c1),
        }
    }

    fn mul(self, other: Fe1024) -> Fe1024 {
        let square = self.c1.mul(other.c1);
        let linear = self.c0.mul(other.c1).add(self.c1.mul(other.c0));
        Fe1024 {
            c0: self.c0.mul(other.c0).add(square),
            c1: linear.add(square),
        }
    }

    #[tactic(auto, unfolding(crate::specs::Gf1024::gf1024))]
    fn neg(self) -> Fe1024 {
        Fe1024 {
            c0: self.c0.neg(),
            c1: self.c1.neg(),
        }
    }

    // The conjugate, c0 + c1 - c1 ζ, over the norm, which is the product of both; the norm is ZERO for ZERO alone.
    fn multiplicative_inverse(self) -> Result<Fe1024, FieldFault> {
        let sum = self.c0.add(self.c1);
        let norm = self.c0.mul(sum).add(self.c1.mul(self.c1).neg());
        let scale = norm.multiplicative_inverse()?;
        Ok(Fe1024 {
            c0: sum.mul(scale),
            c1: self.c1.neg().mul(scale),
        })
    }

    fn to_number(self) -> u16 {
        self.c0.to_number() + 32 * self.c1.to_number()
    }

    fn from_number(number: u16) -> Option<Fe1024> {
        let c0 = Fe32::from_number(number % 32)?;
        let c1 = Fe32::from_number(number / 32)?;
        Some(Fe1024 { c0, c1 })
    }

    fn small() {}
}

impl ExtensionField for Fe1024 {
    type BaseField = Fe32;

    ghost lifted = { lift1024 };

    fn lift(base: Fe32) -> Fe1024 {
        Fe1024 {
            c0: base,
            c1: Fe32::ZERO,
        }
    }

    fn drop_to_base(self) -> Option<Fe32> {
        (self == Fe1024::lift(self.c0)).then_some(self.c0)
    }

    #[tactic(auto, using(crate::specs::Laws::Gf1024::lift1024_lifts))]
    fn lift_laws() {}
}
