// Why a typed line is refused.

use book::SlipFault;

/// Why a line is refused. A place counts the line's bytes, from 0.
#[derive(Clone, Copy, Debug)]
pub enum LineFault {
    /// The slip refuses what stands at this place.
    OnSlip(SlipFault, usize),
    /// The byte at this place may not stand there: it is outside the set, and no space, slash or question mark; or it is a question
    /// mark in a line in which nothing may be unknown.
    OutsideSet(usize),
    /// The letter at this place has not the case of the line's first letter.
    OtherCase(usize),
    /// There are too few symbols, or too many.
    SymbolCount,
    /// The time is past the last tenth of a second of a day.
    LateTime,
}
