// What a finite field is, and a field above another. Each field proves the laws of its own elements; all code above is
// written, and proved, for any field that keeps them.
ghost use denote.Param.{layout};
ghost use Rattle.std.specs.Prelude.{◌≡◌, ℕ, ◌≤◌, ◌^◌, Bool, Decides};
ghost use prog.Memory.{size};
ghost use Rattle.algebra.specs.Field.{FieldOn, Enumeration, IsCyclic, divisors_to, HasCharacteristicTwo, IsEmbedding, Drops};
ghost use Rattle.fields.specs.Elements.{inverse, from_number};

use crate::fault::FieldFault;

/// A finite field. Each constant has a ghost member of its name, by which clauses know it. The divisors are a function: a
/// constant slice has a place in memory, which the trait would have to name.
pub trait Field: Copy + PartialEq {
    // Sum, product, negative and inverse, with the laws of a field.
    ghost field: { FieldOn Self };

    // The whole number that each element stands for.
    ghost numbers: { Enumeration Self };

    ghost ZERO: { Self };

    ghost ONE: { Self };

    ghost GENERATOR: { Self };

    ghost MULTIPLICATIVE_ORDER: { ℕ };

    /// The neutral element of sums.
    const ZERO: Self;

    /// The neutral element of products.
    const ONE: Self;

    /// An element whose powers are all elements but ZERO.
    const GENERATOR: Self;

    /// How many elements there are but ZERO.
    const MULTIPLICATIVE_ORDER: usize;

    /// The divisors of the order, ascending.
    fn order_factors<'a>() -> &'a [usize]
        ensures { result.now ≡ divisors_to MULTIPLICATIVE_ORDER MULTIPLICATIVE_ORDER };

    /// The sum.
    fn add(self, other: Self) -> Self
        ensures { result ≡ field.add self other };

    /// The product.
    fn mul(self, other: Self) -> Self
        ensures { result ≡ field.mul self other };

    /// The negative: the sum of both is ZERO.
    fn neg(self) -> Self
        ensures { result ≡ field.neg self };

    /// The inverse: the product of both is ONE. Refused for ZERO.
    fn multiplicative_inverse(self) -> Result<Self, FieldFault>
        ensures { result ≡ inverse field self };

    /// The number that the element stands for. A method, as `from_number`, and no `From`: the laws below speak of both.
    fn to_number(self) -> u16
        ensures { result ≡ numbers.number self };

    /// The element that stands for a number, none from the size on.
    fn from_number(number: u16) -> Option<Self>
        ensures { result ≡ from_number numbers number };

    /// An element takes little memory, so that generic code can own an array of elements.
    fn small()
        ensures { size (layout Self.row) ≤ 2 ^ 50 };

    ghost zero_is: { ZERO ≡ field.𝟘 };

    ghost one_is: { ONE ≡ field.𝟙 };

    ghost cyclic: { IsCyclic field numbers GENERATOR MULTIPLICATIVE_ORDER };

    // The characteristic is 2. Only the multiples by signed numbers rest on this law.
    ghost characteristic_two: { HasCharacteristicTwo field };

    ghost equality: { (x y : Self) (b : Bool) → (b ≡ Self.PartialEq.eq x y) → Decides b (x ≡ y) };
}

/// A field above another, its base: each element of the base has its place in it.
pub trait ExtensionField: Field {
    type BaseField: Field;

    ghost lifted: { Self.BaseField → Self };

    fn lift(base: Self::BaseField) -> Self
        ensures { result ≡ lifted base };

    /// The element of the base that was lifted to this one; none if none was.
    fn drop_to_base(self) -> Option<Self::BaseField>
        ensures { Drops lifted self result };

    /// Lifting keeps sums and products, and no two elements lift to one.
    fn lift_laws()
        ensures { IsEmbedding Self.BaseField.field Self.field lifted };
}
