// Why a code refuses a slip.

/// Why a code refuses to seal or to mend a slip.
#[derive(Clone, Copy, Debug)]
pub enum CodeFault {
    /// The slip holds too few symbols to be worked on.
    Short,
    /// The row is, or would be, longer than the code's limit.
    Long,
    /// The list lent for records is shorter than the bound.
    Records,
    /// The working list is too short.
    Working,
    /// More places are doubted than the bound.
    Doubts,
    /// No row is near.
    Unfit,
}
