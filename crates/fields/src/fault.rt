// The refusals of a field.

/// Why a field refuses.
#[derive(Clone, Copy, Debug)]
pub enum FieldFault {
    /// ZERO has no inverse.
    Zero,
    /// The least exponent of 64 bits has no negative among them.
    Exponent,
}
