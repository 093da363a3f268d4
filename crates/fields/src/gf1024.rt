// The elements of GF(1024).
use crate::gf32::Fe32;

pub mod arithmetic;

/// An element of GF(1024): c0 + c1 ζ over GF(32), where ζ² = 1 + ζ.
// A struct of its own and not one for every degree: the product and the inverse are formulas of degree 2.
#[derive(Clone, Copy, PartialEq, Eq, Debug)]
pub struct Fe1024 {
    pub c0: Fe32,
    pub c1: Fe32,
}
