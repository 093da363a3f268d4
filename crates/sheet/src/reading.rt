// What a mended line says.

/// A finish as a typed line says it once it is mended.
#[derive(Clone, Copy, Debug)]
pub struct Reading {
    /// How many symbols were changed.
    pub changes: usize,
    /// The boat's sail number.
    pub sail: u32,
    /// The tenths of a second since midnight.
    pub tenths: u32,
}
