// What a search for the near row finds.
use crate::pattern::Pattern;
use slip::Slip;

/// The pattern that makes a slip's row the near row, how many of its records change something, and the slip after it: that
/// row, nothing doubted.
#[derive(Drop)]
pub struct Found {
    pub pattern: Pattern,
    pub nonzero: usize,
    pub mended: Slip,
}
