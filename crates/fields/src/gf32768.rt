// The elements of GF(32768).
use crate::gf32::Fe32;

pub mod arithmetic;

/// An element of GF(32768): c0 + c1 ζ + c2 ζ² over GF(32), where ζ³ = 1 + ζ.
// A struct of its own and not one for every degree: the product and the inverse are formulas of degree 3.
#[derive(Clone, Copy, PartialEq, Eq, Debug)]
pub struct Fe32768 {
    pub c0: Fe32,
    pub c1: Fe32,
    pub c2: Fe32,
}
